// All the rest at once (document 02, request 2026-05): one call takes the expected type numbers and writes all remaining arguments, packed, to
// one buffer. The description is laid out once, every type and every length is checked before a byte is written, and the record goes to the end.
// The calls take station, seat, walk, images and types one by one, as cb_finish_walk lends them and docs/CONTRACTS.md names them.
#![tactic(auto)]

ghost use Rattle.std.specs.Prelude.{◌≡◌, [], ◌+◌, ◌-◌, ◌≤◌, length};
ghost use Rattle.description.specs.Description.{arguments_in};
ghost use Rattle.station.specs.Paper.{kcb, area_of, answer_under};
ghost use Rattle.station.specs.Attachment.{described};
ghost use Rattle.walk.specs.Orders.{asking};
ghost use Rattle.finishing.specs.Rest.{asking_rest, remaining, differs, sizes_from, later_refusal, seated_refusal, finish_refusal, bytes_over, moved_over, walk_left, out_left, finish_walk, finish_out};
ghost use Rattle.finishing.specs.Asks.{Judged};

use classify::Entry;
use form::{Reason, Refusal};
use layout::Described;
use places::Argument;
use station::Station;
use units::Bytes;
use walk::Walk;

// ---- the checks

// 20: whether a type number asked differs from its argument's.
// A loop and no `any`: its closure would need a contract of its own, that `i` is in range, and be no plainer.
fn other_types(known: Described, position: usize, asked: &[u8]) -> bool
    requires { position + length asked.now ≡ arguments_in known.bytes.now }
    ensures { result ≡ differs kcb known.entry.bytes.now position asked.now }
{
    for (i, ty) in asked.iter().enumerate() {
        if description::argument_at(known.bytes, position + i) != usize::from(*ty) {
            return true;
        }
    }
    false
}

// The bytes of all arguments from `position` on.
fn bytes_left(known: Described, position: usize) -> Bytes
    requires { position ≤ arguments_in known.bytes.now }
    ensures { result.0 ≡ sizes_from kcb known.entry.bytes.now position (arguments_in known.entry.bytes.now - position) }
{
    let mut sum = Bytes(0);
    for at in position..known.arguments() {
        let ty = description::argument_at(known.bytes, at);
        let extent = types::extent_in(known.table, ty);
        sum = sum + extent.size;
    }
    sum
}

// Whether 17, 18, 24, 20, or 11 for the stack image and the out buffer refuses.
fn may_finish(
    station: Station,
    known: Described,
    walk: Walk,
    stack: &[u8],
    asked: &[u8],
    room: Bytes,
    area: Bytes,
) -> Result<(), Refusal>
    requires { area.0 ≡ area_of kcb known.bytes.now }
    ensures { result ≡ answer_under kcb known.entry.bytes.now (later_refusal kcb station known.entry.bytes.now walk stack.now asked.now room.0) tt }
{
    if walk.number != station.number {
        return Err(Refusal::from(Reason::OtherAttachment));
    }
    if walk.is_astray(known) {
        return Err(Refusal::from(Reason::Astray));
    }
    if asked.len() != known.arguments() - walk.position {
        return Err(Refusal::from(Reason::WrongTypeCount));
    }
    if other_types(known, walk.position, asked) {
        return Err(Refusal::from(Reason::OtherType));
    }
    if Bytes(stack.len()) != area || room != bytes_left(known, walk.position) {
        return Err(Refusal::from(Reason::WrongBuffer));
    }
    Ok(())
}

// ---- the bytes

// Every argument from the walk's position on, fetched as a step fetches it, and the walk behind the last.
fn fetch_all(known: Described, walk: Walk, registers: &[u8], stack: &[u8], out: &mut [u8]) -> Walk
    requires { Judged known.bytes.now walk (length registers.now) (length stack.now) (length out.old) }
    ensures { (result ≡ moved_over kcb known.entry.bytes.now (remaining kcb known.entry.bytes.now walk) walk)
        × (out.new ≡ bytes_over kcb known.entry.bytes.now (remaining kcb known.entry.bytes.now walk) walk (asking registers.now stack.now 0 [])) }
{
    let mut at = walk;
    let mut done = 0;
    for position in walk.position..known.arguments() {
        let ty = description::argument_at(known.bytes, position);
        let argument = Argument {
            entry: Entry(known.table[ty]),
            named: false,
        };
        let shape = argument.shape();
        let end = done + shape.size.0;
        let fetch = at.fetch(shape);
        fetch.copy_out(shape.size, registers, stack, &mut out[done..end]);
        at = at.behind(shape);
        done = end;
    }
    at
}

// ---- the call

// 1..10 and what comes after them, of the description that the seat holds.
fn finish_seated(
    station: Station,
    d: &[u8],
    walk: &mut Walk,
    registers: &[u8],
    stack: &[u8],
    asked: &[u8],
    out: &mut [u8],
) -> Result<(), Refusal>
    requires { length registers.now ≡ 176 }
    ensures { (result ≡ answer_under kcb d.now (seated_refusal kcb station d.now walk.old (asking_rest registers.now stack.now asked.now out.old)) tt)
        × (walk.new ≡ walk_left kcb (seated_refusal kcb station d.now walk.old (asking_rest registers.now stack.now asked.now out.old)) d.now walk.old)
        × (out.new ≡ out_left kcb (seated_refusal kcb station d.now walk.old (asking_rest registers.now stack.now asked.now out.old)) d.now walk.old (asking_rest registers.now stack.now asked.now out.old)) }
{
    let mut table = [0u32; 64];
    let layout = layout::layout_with(d, &mut table)?;
    let known = Described {
        bytes: d,
        table: &table,
    };
    let room = Bytes(out.len());
    may_finish(station, known, *walk, stack, asked, room, layout.area)?;
    *walk = fetch_all(known, *walk, registers, stack, out);
    Ok(())
}

// All the rest of the walk that the host lends, on the station that it lends: every argument's bytes are copied and the walk is at its end,
// or the out buffer and the walk stay.
pub fn finish_walk(
    station: &Station,
    seat: &[u8],
    walk: &mut Walk,
    registers: &[u8],
    stack: &[u8],
    asked: &[u8],
    out: &mut [u8],
) -> Result<(), Refusal>
    ensures { (result ≡ answer_under kcb (described station.now seat.now) (finish_refusal kcb station.now seat.now walk.old (asking_rest registers.now stack.now asked.now out.old)) tt)
        × (walk.new ≡ finish_walk kcb station.now seat.now walk.old (asking_rest registers.now stack.now asked.now out.old))
        × (out.new ≡ finish_out kcb station.now seat.now walk.old (asking_rest registers.now stack.now asked.now out.old)) }
{
    if station::wrong_seat(*station, seat) || registers.len() != 176 {
        return Err(Refusal::from(Reason::WrongBuffer));
    }
    if !station.attached {
        return Err(Refusal::from(Reason::NotAttached));
    }
    let d = &seat[..station.length.0];
    finish_seated(*station, d, walk, registers, stack, asked, out)
}
