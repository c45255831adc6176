// Reads the texts that stand in tests/vectors/texts.in as prototypes, or as the types of further arguments; texts.out has what an independent reading of
// docs/GRAMMAR.md says of each.
#![tactic(auto)]

use reading::ReadError;

fn print_answer(rt: &impl Print, answer: Result<(), ReadError>) {
    let _ = match answer {
        Ok(()) => println!(rt; "accepted"),
        Err(ReadError::TooLong) => println!(rt; "too long"),
        Err(ReadError::RefusedAt(place)) => println!(rt; "refused at {place}"),
    };
}

// A part begins with a byte that says what its text is read as: 0, a prototype; otherwise the types of further arguments.
fn read_text(part: &[u8]) -> Result<(), ReadError> {
    match part {
        [] => Ok(()),
        [0, text @ ..] => reading::read_prototype(text),
        [_, text @ ..] => reading::read_types(text),
    }
}

// One text; none at the end of the input.
fn print_next(rt: &(impl Print + Input)) -> Option<()> {
    let mut space = [0u8; 65536];
    let n = streams::read_part(rt, &mut space)?;
    print_answer(rt, read_text(&space[..n]));
    Some(())
}

fn main(rt: HostRuntime) {
    for _ in 0..streams::RECORDS {
        if print_next(&rt).is_none() {
            return;
        }
    }
}
