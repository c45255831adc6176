// The next argument shown where it lies (document 01, "Station and walk", "A second call", "A third call"): as a part of one of the two images.
ghost use Rattle.std.specs.Prelude.{◌≡◌, ◌+◌, ◌≤◌, cond, length, [], take, drop, Ok, Some, None};
ghost use Rattle.places.specs.Recorded.{listed, asked as asked_of};
ghost use Rattle.walk.specs.Offsets.{source_of};
ghost use Rattle.walk.specs.Show.{one_piece, part_in, Lies, shown_answer, show_part};
ghost use Rattle.station.specs.Paper.{kcb, answer_under};
ghost use Rattle.walk.specs.Orders.{asking, show_refusal};
ghost use Rattle.station.specs.Attachment.{described};

use crate::{Fetch, Walk, checking};
use form::Refusal;
use places::{Kind, Kinds, Shape};
use station::Station;
use units::Bytes;

// So many bytes of an image, from an offset on.
#[derive(Clone, Copy, Debug, PartialEq, Eq)]
pub struct Part {
    pub offset: Bytes,
    pub length: Bytes,
}

// Which image an argument lies in, in one part, and where.
#[derive(Clone, Copy, Debug, PartialEq, Eq)]
pub enum Shown {
    Registers(Part),
    Stack(Part),
}

impl Part {
    // Its bytes.
    fn of<'a>(self, image: &'a [u8]) -> &'a [u8]
        requires { self.offset.0 + self.length.0 ≤ length image.now }
        ensures { result.now ≡ take self.length.0 (drop self.offset.0 image.now) }
    {
        let end = self.offset + self.length;
        &image[self.offset.0..end.0]
    }
}

// Whether all eightbytes lie in one part of the register image: not "two vector registers", not "mixed ones (r9 with xmm0 too, though
// they adjoin)", and no wide register, which no unnamed argument has.
fn one_piece(kinds: Kinds) -> bool
    ensures { result ≡ one_piece (listed kinds) }
{
    match kinds {
        Kinds::Stack | Kinds::One(Kind::Wide) => false,
        Kinds::One(_) => true,
        Kinds::Two(low, high) => {
            matches!(
                (low, high),
                (Kind::General, Kind::General) | (Kind::Vector, Kind::Upper)
            )
        }
    }
}

// The part of an argument whose first eightbyte lies at this offset of the register image.
fn in_registers(offset: Bytes, shape: Shape) -> Option<Shown>
    ensures { result ≡ cond (one_piece (listed shape.kinds)) (Some (Shown.Registers (record { offset = offset; length = shape.size }))) None }
{
    if !one_piece(shape.kinds) {
        return None;
    }
    Some(Shown::Registers(Part {
        offset,
        length: shape.size,
    }))
}

// The part of an argument that is fetched there, none where it lies in more than one.
fn part_of(fetch: Fetch, shape: Shape) -> Option<Shown>
    ensures { Ok result ≡ part_in (source_of fetch) (asked_of shape) }
{
    match fetch {
        Fetch::One(offset) | Fetch::Two(offset, _) => in_registers(offset, shape),
        Fetch::Stack(offset) => Some(Shown::Stack(Part {
            offset,
            length: shape.size,
        })),
    }
}

// ---- the calls

// Where the argument that the walk stands before lies.
pub fn shown_at(
    station: Station,
    seat: &[u8],
    walk: Walk,
    registers: &[u8],
    stack: &[u8],
    asked: u8,
) -> Result<Option<Shown>, Refusal>
    ensures { (result ≡ shown_answer kcb station seat.now walk (asking registers.now stack.now asked []))
        × Lies result (length registers.now) (length stack.now) }
{
    let shape = checking::checked(station, seat, walk, registers, stack, asked)?;
    Ok(part_of(walk.fetch(shape), shape))
}

// The argument as a part of the register image or of the stack image; the empty part for a refusal, and where it lies in more than one.
pub fn show<'a>(
    station: Station,
    seat: &[u8],
    walk: Walk,
    registers: &'a [u8],
    stack: &'a [u8],
    asked: u8,
) -> &'a [u8]
    ensures { result.now ≡ show_part kcb station seat.now walk (asking registers.now stack.now asked []) }
{
    match shown_at(station, seat, walk, registers, stack, asked) {
        Ok(Some(Shown::Registers(part))) => part.of(registers),
        Ok(Some(Shown::Stack(part))) => part.of(stack),
        Ok(None) => &registers[..0],
        Err(_) => &registers[..0],
    }
}

// Whether `show` refuses.
pub fn show_number(
    station: Station,
    seat: &[u8],
    walk: Walk,
    registers: &[u8],
    stack: &[u8],
    asked: u8,
) -> Result<(), Refusal>
    ensures { result ≡ answer_under kcb (described station seat.now) (show_refusal kcb station seat.now walk (asking registers.now stack.now asked [])) tt }
{
    checking::checked(station, seat, walk, registers, stack, asked)?;
    Ok(())
}
