// Answers the questions about types that stand in tests/vectors/questions.in, a line each; questions.out has what an independent
// reading of the rules answers.
#![tactic(auto)]

use classes::Class;
use form::Refusal;
use units::Bytes;

// The number, and the type that breaks the rule of 6 or 7, which is 0 for the others.
fn print_refusal(rt: &impl Print, refusal: Refusal) {
    let _ = print!(rt; "refused {} {}", refusal.number, refusal.ty);
}

fn class_name(class: Class) -> &'static str {
    match class {
        Class::NoClass => "NO_CLASS",
        Class::Integer => "INTEGER",
        Class::Sse => "SSE",
        Class::SseUp => "SSEUP",
        Class::X87 => "X87",
        Class::X87Up => "X87UP",
        Class::ComplexX87 => "COMPLEX_X87",
        Class::Memory => "MEMORY",
    }
}

fn print_align(rt: &impl Print, d: &[u8], t: u8) {
    match questions::type_align(d, t) {
        Ok(align) => {
            let _ = print!(rt; " align {}", align.0);
        }
        Err(refusal) => print_refusal(rt, refusal),
    }
}

fn print_classes(rt: &impl Print, d: &[u8], t: u8) {
    match questions::type_classes(d, t) {
        Ok((first, second, third, fourth)) => {
            let _ = print!(rt;
                " classes {} {} {} {}",
                class_name(first),
                class_name(second),
                class_name(third),
                class_name(fourth)
            );
        }
        Err(refusal) => print_refusal(rt, refusal),
    }
}

// The bytes of a part, each as a number.
fn print_part(rt: &impl Print, part: &[u8]) {
    let _ = print!(rt; " part");
    for member in part {
        let _ = print!(rt; " {member}");
    }
}

// What a list holds that is lent for the members' offsets.
fn print_offsets(rt: &impl Print, d: &[u8], t: u8, offsets: &mut [usize]) {
    match questions::member_offsets(d, t, offsets) {
        Ok(()) => {
            let _ = print!(rt; " offsets");
            for offset in offsets.iter() {
                let _ = print!(rt; " {offset}");
            }
        }
        Err(refusal) => print_refusal(rt, refusal),
    }
}

// Where the run lies, and the part that is handed out for it: its bytes are those that stand there only where it begins there. Then where the
// members lie, in a list that is just as long.
fn print_run(rt: &impl Print, d: &[u8], t: u8) {
    let part = questions::member_run(d, t);
    let mut offsets = [0usize; 255];
    match questions::run_at(d, t) {
        Ok(Some((offset, count))) => {
            let _ = print!(rt; " run {}", offset.0);
            print_part(rt, part);
            if let Some(list) = offsets.get_mut(..count) {
                print_offsets(rt, d, t, list);
            }
        }
        Ok(None) => {
            let _ = print!(rt; " run none");
            if !part.is_empty() {
                print_part(rt, part);
            }
        }
        Err(refusal) => print_refusal(rt, refusal),
    }
}

fn print_known(rt: &impl Print, d: &[u8], t: u8, size: Bytes) {
    let _ = print!(rt; "size {}", size.0);
    print_align(rt, d, t);
    print_classes(rt, d, t);
    print_run(rt, d, t);
}

fn answer(rt: &impl Print, d: &[u8], t: u8) {
    match questions::type_size(d, t) {
        Ok(size) => print_known(rt, d, t, size),
        Err(refusal) => print_refusal(rt, refusal),
    }
    let _ = println!(rt);
}

// One description and the number of a type; none at the end of the input.
fn answer_next(rt: &(impl Print + Input)) -> Option<()> {
    let mut space = [0u8; 65536];
    let mut asked = [0u8; 1];
    let n = streams::read_part(rt, &mut space)?;
    if streams::read_full(rt, &mut asked) < 1 {
        return None;
    }
    answer(rt, &space[..n], asked[0]);
    Some(())
}

fn main(rt: HostRuntime) {
    for _ in 0..streams::RECORDS {
        if answer_next(&rt).is_none() {
            return;
        }
    }
}
