// One step of a walk (document 01, "Station and walk"): the argument's bytes into the out buffer, and the walk on to the next.
ghost use Rattle.std.specs.Prelude.{◌≡◌, ◌++◌, length};
ghost use Rattle.addresses.specs.Addresses.{gather};
ghost use Rattle.walk.specs.Offsets.{bytes_from, source_of};
ghost use Rattle.walk.specs.Asks.{Within};
ghost use Rattle.station.specs.Paper.{kcb, answer_under};
ghost use Rattle.station.specs.Attachment.{described};
ghost use Rattle.walk.specs.Orders.{asking, step_refusal};
ghost use Rattle.walk.specs.Steps.{step_walk, step_out};

use crate::{Fetch, Walk, checking};
use form::{Reason, Refusal};
use station::Station;
use units::Bytes;

impl Fetch {
    // Copies the argument's bytes into the out buffer, eightbyte after eightbyte or in one piece.
    pub fn copy_out(self, size: Bytes, registers: &[u8], stack: &[u8], out: &mut [u8])
        requires { (length registers.now ≡ 176) × (length out.old ≡ size.0) × Within self size.0 176 (length stack.now) }
        ensures { out.new ≡ gather (registers.now ++ stack.now) (bytes_from 176 (source_of self) size.0) }
    {
        match self {
            Fetch::One(offset) => addresses::copy(out, 0, registers, offset.0, size.0),
            Fetch::Two(low, high) => {
                addresses::copy(out, 0, registers, low.0, 8);
                addresses::copy(out, 8, registers, high.0, size.0 - 8);
            }
            Fetch::Stack(offset) => addresses::copy(out, 0, stack, offset.0, size.0),
        }
    }
}

// One step of the walk that the host lends, on the station that it lends: the bytes are copied and the walk moves on, or the out buffer
// and the walk stay.
pub fn step(
    station: &Station,
    seat: &[u8],
    walk: &mut Walk,
    registers: &[u8],
    stack: &[u8],
    asked: u8,
    out: &mut [u8],
) -> Result<(), Refusal>
    ensures { (result ≡ answer_under kcb (described station.now seat.now) (step_refusal kcb station.now seat.now walk.old (asking registers.now stack.now asked out.old)) tt)
        × (walk.new ≡ step_walk kcb station.now seat.now walk.old (asking registers.now stack.now asked out.old))
        × (out.new ≡ step_out kcb station.now seat.now walk.old (asking registers.now stack.now asked out.old)) }
{
    let shape = checking::checked(*station, seat, *walk, registers, stack, asked)?;
    if Bytes(out.len()) != shape.size {
        return Err(Refusal::from(Reason::WrongBuffer));
    }
    let fetch = walk.fetch(shape);
    fetch.copy_out(shape.size, registers, stack, out);
    *walk = walk.behind(shape);
    Ok(())
}
