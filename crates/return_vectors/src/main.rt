// Puts and takes what stands in tests/vectors/returns.in, five lines for each record; returns.out has what an independent reading of
// the rules answers.
#![tactic(auto)]

use streams::Hex;

// Puts, and takes from the images as they are then, whether or not putting was refused.
fn answer(
    rt: &impl Print,
    d: &[u8],
    hidden: u64,
    value: &[u8],
    image: &mut [u8],
    upper: &mut [u8],
    out: &mut [u8],
) {
    let _ = match returning::put_returned(d, hidden, value, image, upper) {
        Ok(()) => println!(rt; "put"),
        Err(refusal) => streams::print_refusal(rt, refusal),
    };
    let _ = println!(rt; "image{}", Hex(image));
    let _ = println!(rt; "upper{}", Hex(upper));
    // What the buffer for taking holds before.
    out.fill(0xEE);
    let _ = match returning::take_returned(d, image, upper, out) {
        Ok(address) => println!(rt; "taken {address}"),
        Err(refusal) => streams::print_refusal(rt, refusal),
    };
    let _ = println!(rt; "value{}", Hex(out));
}

// The two images and the room for taking, and the answers.
fn answer_images(rt: &(impl Print + Input), d: &[u8], hidden: u64, value: &[u8]) {
    let mut image = [0u8; 65536];
    let mut upper = [0u8; 65536];
    let mut out = [0u8; 65536];
    let n = streams::read_part(rt, &mut image).unwrap_or(0);
    let u = streams::read_part(rt, &mut upper).unwrap_or(0);
    let v = streams::read_room(rt, out.len());
    answer(
        rt,
        d,
        hidden,
        value,
        &mut image[..n],
        &mut upper[..u],
        &mut out[..v],
    );
}

// The hidden address and the value, and what follows them.
fn answer_value(rt: &(impl Print + Input), d: &[u8]) {
    let mut address = [0u8; 8];
    let mut value = [0u8; 65536];
    streams::read_full(rt, &mut address);
    let n = streams::read_part(rt, &mut value).unwrap_or(0);
    answer_images(rt, d, u64::from_le_bytes(address), &value[..n]);
}

// One record; none at the end of the input.
fn answer_next(rt: &(impl Print + Input)) -> Option<()> {
    let mut space = [0u8; 65536];
    let n = streams::read_part(rt, &mut space)?;
    answer_value(rt, &space[..n]);
    Some(())
}

fn main(rt: HostRuntime) {
    for _ in 0..streams::RECORDS {
        if answer_next(&rt).is_none() {
            return;
        }
    }
}
