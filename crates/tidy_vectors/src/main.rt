// Tidies what stands in tests/vectors/tidies.in, three lines for each record; tidies.out has what an independent reading of the rules
// answers.
#![tactic(auto)]

use streams::Hex;

// The length of the tidy form, and the form into a buffer that is of that length or not.
fn answer(rt: &impl Print, d: &[u8], out: &mut [u8]) {
    let _ = match tidying::tidy_length(d) {
        Ok(length) => println!(rt; "length {}", length.0),
        Err(refusal) => streams::print_refusal(rt, refusal),
    };
    // What the buffer holds before.
    out.fill(0xEE);
    let _ = match tidying::tidy(d, out) {
        Ok(()) => println!(rt; "tidy"),
        Err(refusal) => streams::print_refusal(rt, refusal),
    };
    let _ = println!(rt; "out{}", Hex(out));
}

// One record; none at the end of the input.
fn answer_next(rt: &(impl Print + Input)) -> Option<()> {
    let mut space = [0u8; 65536];
    let mut out = [0u8; 65536];
    let n = streams::read_part(rt, &mut space)?;
    let room = streams::read_room(rt, out.len());
    answer(rt, &space[..n], &mut out[..room]);
    Some(())
}

fn main(rt: HostRuntime) {
    for _ in 0..streams::RECORDS {
        if answer_next(&rt).is_none() {
            return;
        }
    }
}
