// Whether a walk goes on where it stands (document 01, "Station and walk"): every check of a step but that of the out buffer.
ghost use Rattle.std.specs.Prelude.{◌≡◌, []};
ghost use Rattle.station.specs.Paper.{kcb};
ghost use Rattle.station.specs.Attachment.{described};
ghost use Rattle.walk.specs.Orders.{asking, astray, show_refusal, rest_refusal};
ghost use Rattle.walk.specs.Asks.{IsStanding};

use crate::Walk;
use classify::Entry;
use form::{Reason, Refusal};
use layout::Described;
use places::{Argument, Shape};
use station::Station;
use units::Bytes;

impl Walk {
    // 18: "position outside N..A, or offsets not those this description gives there". Only here the walk asks the layout.
    pub fn is_astray(self, known: Described) -> bool
        ensures { result ≡ astray kcb known.entry.bytes.now self }
    {
        let position = self.position;
        if position < known.named() || position > known.arguments() {
            return true;
        }
        self != Walk::standing(self.number, position, known.used_after(position))
    }
}

// 1..10, 17, 18, 19, 20, and 11 for a stack image of so many bytes. Whatever the walk stands before is unnamed.
fn stands(station: Station, d: &[u8], walk: Walk, stack: &[u8], asked: u8) -> Result<Shape, Refusal>
    ensures { IsStanding kcb (rest_refusal kcb station d.now walk (asking [] stack.now asked []))
        d.now walk.position result }
{
    let mut table = [0u32; 64];
    let layout = layout::layout_with(d, &mut table)?;
    let known = Described {
        bytes: d,
        table: &table,
    };
    if walk.number != station.number {
        return Err(Refusal::from(Reason::OtherAttachment));
    }
    if walk.is_astray(known) {
        return Err(Refusal::from(Reason::Astray));
    }
    if walk.position == known.arguments() {
        return Err(Refusal::from(Reason::AtEnd));
    }
    let ty = description::argument_at(d, walk.position);
    if ty != usize::from(asked) {
        return Err(Refusal::from(Reason::OtherType));
    }
    if Bytes(stack.len()) != layout.area {
        return Err(Refusal::from(Reason::WrongBuffer));
    }
    let argument = Argument {
        entry: Entry(table[ty]),
        named: false,
    };
    Ok(argument.shape())
}

// Whether the walk goes on here, by every check of a step but that of the out buffer; and what the next argument asks for.
pub fn checked(
    station: Station,
    seat: &[u8],
    walk: Walk,
    registers: &[u8],
    stack: &[u8],
    asked: u8,
) -> Result<Shape, Refusal>
    ensures { IsStanding kcb (show_refusal kcb station seat.now walk (asking registers.now stack.now asked []))
        (described station seat.now) walk.position result }
{
    if station::wrong_seat(station, seat) || registers.len() != 176 {
        return Err(Refusal::from(Reason::WrongBuffer));
    }
    if !station.attached {
        return Err(Refusal::from(Reason::NotAttached));
    }
    stands(station, &seat[..station.length.0], walk, stack, asked)
}
