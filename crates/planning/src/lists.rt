// The lists of a plan, written into the lent list one behind the other.
ghost use Rattle.std.specs.Prelude.{◌≡◌, [], ◌∷◌, ◌+◌, ◌*◌, ◌≤◌, ◌<◌, length};
ghost use Rattle.description.specs.Description.{arguments_in};
ghost use Rattle.layout.specs.Verdict.{verdict};
ghost use Rattle.plans.specs.Plans.{triples};
ghost use Rattle.plans.specs.Cuts.{halved, eights, fours, parts, twos, threes, bools_from};
ghost use Rattle.planning.specs.Planning.{overwritten};
ghost use Rattle.planning.specs.Joining.{move, numbers_of, all_of};
ghost use Rattle.planning.specs.Asks.{AskMove, AskMoves};

use crate::numbers;
use layout::Described;
use units::Bytes;

// The lists of moves: of eight bytes, of four, and of any other number of them.
#[derive(Clone, Copy)]
pub enum Kind {
    Eights,
    Fours,
    Parts,
}

// ---- the lists of moves

// A move among the eights: one of eight bytes, or the two of sixteen.
fn put_eights(plan: &mut [u16], at: usize, source: usize, target: usize, bytes: usize) -> usize
    requires { (at + length (twos (eights (halved (move source target bytes ∷ [])))) ≤ length plan.old) × AskMove (move source target bytes) }
    ensures { (plan.new ≡ overwritten plan.old at (twos (eights (halved (move source target bytes ∷ [])))))
        × (result ≡ at + length (twos (eights (halved (move source target bytes ∷ []))))) }
{
    if bytes == 8 {
        return numbers::put_two(plan, at, source, target);
    }
    if bytes != 16 {
        return at;
    }
    let behind = numbers::put_two(plan, at, source, target);
    numbers::put_two(plan, behind, source + 8, target + 8)
}

// A move among the fours.
fn put_four(plan: &mut [u16], at: usize, source: usize, target: usize, bytes: usize) -> usize
    requires { (at + length (twos (fours (halved (move source target bytes ∷ [])))) ≤ length plan.old) × AskMove (move source target bytes) }
    ensures { (plan.new ≡ overwritten plan.old at (twos (fours (halved (move source target bytes ∷ [])))))
        × (result ≡ at + length (twos (fours (halved (move source target bytes ∷ []))))) }
{
    if bytes != 4 {
        return at;
    }
    numbers::put_two(plan, at, source, target)
}

// A move among the parts.
fn put_part(plan: &mut [u16], at: usize, source: usize, target: usize, bytes: usize) -> usize
    requires { (at + length (threes (parts (halved (move source target bytes ∷ [])))) ≤ length plan.old) × AskMove (move source target bytes) }
    ensures { (plan.new ≡ overwritten plan.old at (threes (parts (halved (move source target bytes ∷ [])))))
        × (result ≡ at + length (threes (parts (halved (move source target bytes ∷ []))))) }
{
    if bytes == 8 {
        return at;
    }
    if bytes == 16 {
        return at;
    }
    if bytes == 4 {
        return at;
    }
    numbers::put_three(plan, at, source, target, bytes)
}

// A move in the list of one kind.
fn put_kind(
    plan: &mut [u16],
    at: usize,
    kind: Kind,
    source: usize,
    target: usize,
    bytes: usize,
) -> usize
    requires { (at + length (numbers_of kind (move source target bytes)) ≤ length plan.old) × AskMove (move source target bytes) }
    ensures { (plan.new ≡ overwritten plan.old at (numbers_of kind (move source target bytes)))
        × (result ≡ at + length (numbers_of kind (move source target bytes))) }
{
    match kind {
        Kind::Eights => put_eights(plan, at, source, target, bytes),
        Kind::Fours => put_four(plan, at, source, target, bytes),
        Kind::Parts => put_part(plan, at, source, target, bytes),
    }
}

// The list of one kind, of all moves, from index `first` on; answers where it ends.
pub fn write_kind(moves: &[u16], count: usize, kind: Kind, plan: &mut [u16], first: usize) -> usize
    requires { (3 * count ≤ length moves.now) × (first + length (all_of kind (triples moves.now 0 count)) ≤ length plan.old)
        × AskMoves (triples moves.now 0 count) }
    ensures { (plan.new ≡ overwritten plan.old first (all_of kind (triples moves.now 0 count)))
        × (result ≡ first + length (all_of kind (triples moves.now 0 count))) }
{
    let mut at = first;
    for k in 0..count {
        let source = numbers::number_at(moves, 3 * k);
        let target = numbers::number_at(moves, 3 * k + 1);
        let bytes = numbers::number_at(moves, 3 * k + 2);
        at = put_kind(plan, at, kind, source, target, bytes);
    }
    at
}

// ---- the _Bool arguments

// Where the _Bool arguments begin, from index `first` on; answers where the list ends.
pub fn write_bools(described: Described, plan: &mut [u16], first: usize) -> usize
    requires { (verdict described.bytes.now ≡ 0) × (first + length (bools_from described.bytes.now 0 (arguments_in described.bytes.now)) ≤ length plan.old) }
    ensures { (plan.new ≡ overwritten plan.old first (bools_from described.entry.bytes.now 0 (arguments_in described.entry.bytes.now)))
        × (result ≡ first + length (bools_from described.entry.bytes.now 0 (arguments_in described.entry.bytes.now))) }
{
    let d = described.bytes;
    let mut at = first;
    let mut start = Bytes(0);
    for i in 0..described.arguments() {
        let k = description::argument_at(d, i);
        at = numbers::put_if(moving::is_bool(d, k), plan, at, start.0);
        start = start + types::extent_in(described.table, k).size;
    }
    at
}
