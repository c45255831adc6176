// The station and its seat (document 01, "Station and walk"): attaching a description, detaching it and changing it for another
// (request 2026-09).
#![tactic(auto)]

ghost use Rattle.std.specs.Prelude.{◌≡◌, ◌≤◌, length};
ghost use Rattle.station.specs.Attachment.{new_station, wrong_seat, seat_of, attach_refusal, attach_station, attach_seat, detach_refusal, detach_station, detach_seat, change_refusal, change_station, change_seat};
ghost use Rattle.station.specs.Paper.{kcb, answer_under};
ghost use Rattle.station.specs.Outcome.{answer_of};

use form::{Reason, Refusal};
use units::Bytes;

// What the host keeps of a seat: whether a description is attached there, how long it is, and the number of the last attachment.
// A flag beside the length, and no Option: a length over 586 is refused under 11, attached or not (`wrong_seat` of specs/Attachment).
#[repr(C)]
#[derive(Clone, Copy, Debug, PartialEq, Eq)]
pub struct Station {
    pub attached: bool,
    pub length: Bytes,
    pub number: u32,
}

// A station that nothing was ever attached to.
pub fn new_station() -> Station
    ensures { result ≡ new_station }
{
    Station {
        attached: false,
        length: Bytes(0),
        number: 0,
    }
}

// Whether the seat is not 586 bytes, or the station says more than that.
pub fn wrong_seat(station: Station, seat: &[u8]) -> bool
    ensures { result ≡ wrong_seat station seat.now }
{
    seat.len() != 586 || station.length > Bytes(586)
}

// The seat: "the description, then zeros".
fn fill(seat: &mut [u8], d: &[u8])
    requires { (length seat.old ≡ 586) × (length d.now ≤ 586) }
    ensures { seat.new ≡ seat_of d.now }
{
    // Not `copy_from_slice`, which is a call of memmove where the length is not known (docs/DECISIONS.md, 97).
    addresses::clear(seat);
    addresses::copy(seat, 0, d, 0, d.len());
}

// ---- attaching

// Whether 11, 14, 15 or 1..10 refuses an attach.
fn may_attach(station: Station, seat: &[u8], d: &[u8]) -> Result<(), Refusal>
    ensures { result ≡ answer_under kcb d.now (attach_refusal kcb station seat.now d.now) tt }
{
    if wrong_seat(station, seat) {
        return Err(Refusal::from(Reason::WrongBuffer));
    }
    if station.attached {
        return Err(Refusal::from(Reason::AlreadyAttached));
    }
    if station.number == u32::MAX {
        return Err(Refusal::from(Reason::NoMoreAttachments));
    }
    layout::check(d)
}

// Attaches to the station and the seat that the host lends: the station counts up and the seat is filled, or both stay.
pub fn attach(station: &mut Station, seat: &mut [u8], d: &[u8]) -> Result<(), Refusal>
    ensures { (result ≡ answer_under kcb d.now (attach_refusal kcb station.old seat.old d.now) tt)
        × (station.new ≡ attach_station kcb station.old seat.old d.now)
        × (seat.new ≡ attach_seat kcb station.old seat.old d.now) }
{
    may_attach(*station, seat, d)?;
    fill(seat, d);
    *station = Station {
        attached: true,
        length: Bytes(d.len()),
        number: station.number + 1,
    };
    Ok(())
}

// ---- detaching

// Whether 11 or 13 refuses a detach.
fn may_detach(station: Station, seat: &[u8]) -> Result<(), Refusal>
    ensures { result ≡ answer_of (detach_refusal station seat.now) tt }
{
    if wrong_seat(station, seat) {
        return Err(Refusal::from(Reason::WrongBuffer));
    }
    if !station.attached {
        return Err(Refusal::from(Reason::NotAttached));
    }
    Ok(())
}

// Detaches from the station and the seat that the host lends: the seat and the length are zeroed and the number stays, or all of them do.
pub fn detach(station: &mut Station, seat: &mut [u8]) -> Result<(), Refusal>
    ensures { (result ≡ answer_of (detach_refusal station.old seat.old) tt)
        × (station.new ≡ detach_station station.old seat.old)
        × (seat.new ≡ detach_seat station.old seat.old) }
{
    may_detach(*station, seat)?;
    seat.fill(0);
    *station = Station {
        attached: false,
        length: Bytes(0),
        number: station.number,
    };
    Ok(())
}

// ---- changing

// Changes modules at the station and the seat that the host lends: "It equals detach, its answer ignored, then attach". It is the one
// call where a refusal writes: what was attached has left.
pub fn change(station: &mut Station, seat: &mut [u8], d: &[u8]) -> Result<(), Refusal>
    ensures { (result ≡ answer_under kcb d.now (change_refusal kcb station.old seat.old d.now) tt)
        × (station.new ≡ change_station kcb station.old seat.old d.now)
        × (seat.new ≡ change_seat kcb station.old seat.old d.now) }
{
    let _ = detach(station, seat);
    attach(station, seat, d)
}
