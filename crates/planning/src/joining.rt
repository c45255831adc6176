// The moves of all arguments, as numbers in a row, three each: source, target and bytes. Neighbours are joined as they come.
// A fixed list and how many moves it has, since there is no heap: 128 moves at most, three numbers each.
ghost use Rattle.std.specs.Prelude.{◌≡◌, true, ◌+◌, ◌*◌, ◌-◌, ◌≤◌, ◌<◌, length, get_or};
ghost use Rattle.places.specs.Recorded.{place_of};
ghost use Rattle.layout.specs.Arguments.{hidden, shapes, used_first};
ghost use Rattle.layout.specs.Verdict.{verdict};
ghost use Rattle.plans.specs.Plans.{triples};
ghost use Rattle.plans.specs.Cuts.{spans_of, pieces, cut_one, cut, joined};
ghost use Rattle.planning.specs.Joining.{move, added, added_all, goes_on};
ghost use Rattle.planning.specs.Asks.{AskCut, AskAlone, AskMove};

use crate::numbers;
use layout::{Described, Laying, Placement};
use places::{Place, Register};
use units::Bytes;

// Whether the last move ends where one from this source to this target begins.
fn goes_on(moves: &[u16], count: usize, source: usize, target: usize) -> bool
    requires { (3 * count ≤ length moves.now) × (count ≤ 128) }
    ensures { (result ≡ goes_on (triples moves.now 0 count) source target)
        × (result ≡ true → (0 < count) × (get_or moves.now (3 * count - 1) 0 ≤ source)) }
{
    if count == 0 {
        return false;
    }
    let last = 3 * count - 3;
    let bytes = numbers::number_at(moves, last + 2);
    if numbers::number_at(moves, last) + bytes != source {
        return false;
    }
    numbers::number_at(moves, last + 1) + bytes == target
}

// One move more; answers how many there are now.
fn join(moves: &mut [u16], count: usize, source: usize, target: usize, bytes: usize) -> usize
    requires { (3 * count + 3 ≤ length moves.old) × (count ≤ 127) × AskMove (move source target bytes) }
    ensures { (triples moves.new 0 result ≡ added (triples moves.old 0 count) (move source target bytes)) × (result ≤ count + 1) }
{
    if goes_on(moves, count, source, target) {
        let last = 3 * count - 1;
        let longer = numbers::number_at(moves, last) + bytes;
        moves[last] = longer as u16;
        return count;
    }
    let next = 3 * count;
    moves[next] = source as u16;
    moves[next + 1] = target as u16;
    moves[next + 2] = bytes as u16;
    count + 1
}

// The moves of an argument that one register holds: bytes 16 to 31 of a wide one stand in the upper image, 128 bytes behind the others.
fn cut_alone(moves: &mut [u16], count: usize, register: Register, size: Bytes, at: Bytes) -> usize
    requires { (3 * count + 6 ≤ length moves.old) × (count ≤ 126) × AskAlone register size.0 at.0 }
    ensures { (triples moves.new 0 result ≡ added_all (triples moves.old 0 count) (pieces at.0 (spans_of register) size.0))
        × (result ≤ count + 2) }
{
    let begin = images::address_of(register).0;
    let bytes = size.0;
    let from = at.0;
    if bytes <= 8 {
        return join(moves, count, from, begin, bytes);
    }
    let more = join(moves, count, from, begin, 16);
    join(moves, more, from + 16, begin + 128, bytes - 16)
}

// The moves of one argument.
fn cut_one(moves: &mut [u16], count: usize, place: Place, size: Bytes, at: Bytes) -> usize
    requires { (3 * count + 6 ≤ length moves.old) × (count ≤ 126) × AskCut place size.0 at.0 }
    ensures { (triples moves.new 0 result ≡ added_all (triples moves.old 0 count) (cut_one at.0 (place_of place) size.0))
        × (result ≤ count + 2) }
{
    let bytes = size.0;
    let from = at.0;
    match place {
        Place::One(only) => cut_alone(moves, count, only, size, at),
        Place::Two(low, high) => {
            let more = join(moves, count, from, images::address_of(low).0, 8);
            join(moves, more, from + 8, images::address_of(high).0, bytes - 8)
        }
        Place::Stack(offset) => join(moves, count, from, 304 + offset.0, bytes),
    }
}

// The moves of all arguments; answers how many.
pub fn join_all(described: Described, used: bool, moves: &mut [u16]) -> usize
    requires { (verdict described.bytes.now ≡ 0) × (length moves.old ≡ 384) × (used ≡ hidden described.bytes.now) }
    ensures { (triples moves.new 0 result ≡ joined (cut (used_first described.entry.bytes.now) 0 (shapes described.entry.bytes.now))) × (result ≤ 128) }
{
    let mut laying = Laying::fresh(used);
    let mut count = 0;
    for i in 0..described.arguments() {
        let placement = described.place_argument(i, &mut laying);
        let Placement {
            place,
            size,
            at,
            ..
        } = placement;
        count = cut_one(moves, count, place, size, at);
    }
    count
}
