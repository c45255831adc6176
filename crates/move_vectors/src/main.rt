// Places and gathers what stands in tests/vectors/moves.in, six lines for each record; moves.out has what an independent reading of
// the rules answers.
#![tactic(auto)]

use streams::Hex;

// Places, and gathers from the images as they are then, whether or not placing was refused.
fn answer(
    rt: &impl Print,
    d: &[u8],
    hidden: u64,
    values: &[u8],
    registers: &mut [u8],
    upper: &mut [u8],
    stack: &mut [u8],
    out: &mut [u8],
) {
    let _ = match moving::place_values(d, hidden, values, registers, upper, stack) {
        Ok(count) => println!(rt; "placed {}", count.0),
        Err(refusal) => streams::print_refusal(rt, refusal),
    };
    let _ = println!(rt; "registers{}", Hex(registers));
    let _ = println!(rt; "upper{}", Hex(upper));
    let _ = println!(rt; "stack{}", Hex(stack));
    // What the buffer for gathering holds before.
    out.fill(0xEE);
    let _ = match moving::gather_values(d, registers, upper, stack, out) {
        Ok(address) => println!(rt; "gathered {address}"),
        Err(refusal) => streams::print_refusal(rt, refusal),
    };
    let _ = println!(rt; "values{}", Hex(out));
}

// The three images and the room for gathering, and the answers.
fn answer_images(rt: &(impl Print + Input), d: &[u8], hidden: u64, values: &[u8]) {
    let mut registers = [0u8; 65536];
    let mut upper = [0u8; 65536];
    let mut stack = [0u8; 65536];
    let mut out = [0u8; 65536];
    let m = streams::read_part(rt, &mut registers).unwrap_or(0);
    let u = streams::read_part(rt, &mut upper).unwrap_or(0);
    let n = streams::read_part(rt, &mut stack).unwrap_or(0);
    let v = streams::read_room(rt, out.len());
    answer(
        rt,
        d,
        hidden,
        values,
        &mut registers[..m],
        &mut upper[..u],
        &mut stack[..n],
        &mut out[..v],
    );
}

// The hidden address and the values, and what follows them.
fn answer_values(rt: &(impl Print + Input), d: &[u8]) {
    let mut address = [0u8; 8];
    let mut values = [0u8; 65536];
    streams::read_full(rt, &mut address);
    let n = streams::read_part(rt, &mut values).unwrap_or(0);
    answer_images(rt, d, u64::from_le_bytes(address), &values[..n]);
}

// One record; none at the end of the input.
fn answer_next(rt: &(impl Print + Input)) -> Option<()> {
    let mut space = [0u8; 65536];
    let n = streams::read_part(rt, &mut space)?;
    answer_values(rt, &space[..n]);
    Some(())
}

fn main(rt: HostRuntime) {
    for _ in 0..streams::RECORDS {
        if answer_next(&rt).is_none() {
            return;
        }
    }
}
