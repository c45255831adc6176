// Lays out the descriptions that stand in tests/vectors/layouts.in, each for a list of so many records, and says whether the call needs the
// stack; layouts.out has what an independent reading of the rules answers.
#![tactic(auto)]

ghost use Rattle.std.specs.Prelude.{◌≡◌};
ghost use Rattle.layout.specs.Layout.{layout_of};

use layout::{Described, Laying, Layout, Placement};
use places::{Place, Register, ReturnPlace};
use std::fmt;
use units::Registers;

// A register by its name behind a blank: general ones have others where a value is returned.
#[derive(Clone, Copy)]
struct Name {
    register: Register,
    returned: bool,
}

impl fmt::Display for Name {
    fn fmt<W: fmt::Write>(&self, f: &mut fmt::Formatter<W>) -> fmt::Result {
        match self.register {
            Register::General(n) => {
                let name = match (self.returned, n.0) {
                    (false, 0) => "rdi",
                    (false, 1) => "rsi",
                    (false, 2) => "rdx",
                    (false, 3) => "rcx",
                    (false, 4) => "r8",
                    (false, 5) => "r9",
                    (true, 0) => "rax",
                    (true, 1) => "rdx",
                    _ => "?",
                };
                write!(f, " {name}")
            }
            Register::Vector(n) => write!(f, " xmm{}", n.0),
            Register::Upper(n) => write!(f, " xmm{}h", n.0),
            Register::Wide(n) => write!(f, " xmm{}y", n.0),
        }
    }
}

fn argument_name(register: Register) -> Name {
    Name {
        register,
        returned: false,
    }
}

fn return_name(register: Register) -> Name {
    Name {
        register,
        returned: true,
    }
}

fn print_record(rt: &impl Print, i: usize, placement: Placement) {
    let Placement {
        ty,
        size,
        align,
        place,
        at,
        named,
    } = placement;
    let _ = print!(rt; "{i} type {ty} size {} align {}", size.0, align.0);
    let _ = match place {
        Place::One(register) => print!(rt; "{}", argument_name(register)),
        Place::Two(low, high) => print!(rt; "{}{}", argument_name(low), argument_name(high)),
        Place::Stack(offset) => print!(rt; " stack {}", offset.0),
    };
    let mark = if named { "named" } else { "unnamed" };
    let _ = println!(rt; " at {} {mark}", at.0);
}

fn print_returned(rt: &impl Print, ty: u8, returns: ReturnPlace) {
    if ty == 255 {
        let _ = println!(rt; "return void");
        return;
    }
    let _ = print!(rt; "return type {ty}");
    let _ = match returns {
        ReturnPlace::Void => println!(rt; " void"),
        ReturnPlace::Memory => println!(rt; " memory"),
        ReturnPlace::One(register) => println!(rt; "{}", return_name(register)),
        ReturnPlace::Two(low, high) => println!(rt; "{}{}", return_name(low), return_name(high)),
        ReturnPlace::St0 => println!(rt; " st0"),
        ReturnPlace::St0St1 => println!(rt; " st0 st1"),
    };
}

// gp_offset and fp_offset after so many registers.
fn general_offset(count: Registers) -> usize {
    if count > Registers(6) {
        return 0;
    }
    count.general_bytes().0
}

fn vector_offset(count: Registers) -> usize {
    if count > Registers(8) {
        return 0;
    }
    48 + count.vector_bytes().0
}

fn print_walk(rt: &impl Print, variadic: bool, layout: Layout) {
    if !variadic {
        let _ = println!(rt; "walk none");
        return;
    }
    let named = layout.named;
    let _ = println!(rt;
        "walk gp {} fp {} over {}",
        general_offset(named.general),
        vector_offset(named.vector),
        named.stack.0
    );
}

// The records, as `lay_out` writes them into a list, between what the call asks for as a whole.
fn print_laid(rt: &impl Print, described: Described, layout: Layout)
    requires { layout ≡ layout_of described.bytes.now }
{
    let used = layout.used;
    let _ = println!(rt;
        "KCB 1 args {} named {} gp {} vec {} stack {}",
        described.arguments(),
        described.named(),
        used.general.0,
        used.vector.0,
        layout.area.0
    );
    let mut laying = Laying::fresh(layout.hidden);
    for i in 0..described.arguments() {
        let placement = described.place_argument(i, &mut laying);
        print_record(rt, i, placement);
    }
    let header = described.bytes;
    print_returned(rt, header.get(9).copied().unwrap_or(255), layout.returns);
    let variadic = header.get(6).is_some_and(|bits| bits % 2 == 1);
    print_walk(rt, variadic, layout);
    let _ = println!(rt; "values {} align {}", layout.values.0, layout.align.0);
}

fn answer(rt: &impl Print, d: &[u8], room: usize) {
    let mut table = [0u32; 64];
    match layout::begin_with(d, room, &mut table) {
        Ok(layout) => {
            let described = Described {
                bytes: d,
                table: &table,
            };
            print_laid(rt, described, layout);
        }
        Err(refusal) => {
            let _ = streams::print_refusal(rt, refusal);
        }
    }
    let _ = match layout::needs_stack(d) {
        Ok(need) => {
            let answer = if need.needed { "yes" } else { "no" };
            println!(rt; "needs {answer} {}", need.looked)
        }
        Err(refusal) => streams::print_refusal(rt, refusal),
    };
}

// One description and the length of a list; none at the end of the input.
fn answer_next(rt: &(impl Print + Input)) -> Option<()> {
    let mut space = [0u8; 65536];
    let mut lent = [0u8; 1];
    let n = streams::read_part(rt, &mut space)?;
    if streams::read_full(rt, &mut lent) < 1 {
        return None;
    }
    answer(rt, &space[..n], usize::from(lent[0]));
    Some(())
}

fn main(rt: HostRuntime) {
    for _ in 0..streams::RECORDS {
        if answer_next(&rt).is_none() {
            return;
        }
    }
}
