// The moves of a list: judged, and made from one lent slice into another. A move is placed from its source to its target, and gathered the other way.
ghost use Rattle.std.specs.Prelude.{Bool, ◌≡◌, true, ◌+◌, ◌≤◌, length};
ghost use Rattle.addresses.specs.Copy.{copied};
ghost use Rattle.plans.specs.Moves.{move_all, all_fit};
ghost use Rattle.by_plan.specs.Lists.{pairs_of, triples_of, moves_of, turned_if};

use crate::head::Lists;

// Values are placed, or gathered: `TURNED`.
pub const PLACING: bool = false;

pub const GATHERING: bool = true;

// Any number of bytes, by eights; four the short way too.
fn copy_part(dst: &mut [u8], to: usize, src: &[u8], from: usize, count: usize)
    requires { (to + count ≤ length dst.old) × (from + count ≤ length src.now) }
    ensures { dst.new ≡ copied dst.old to src.now from count }
{
    for k in 0..count / 8 {
        images::copy_word::<8>(dst, to + 8 * k, src, from + 8 * k);
    }
    let done = count / 8 * 8;
    let rest = count - done;
    if rest == 4 {
        images::copy_word::<4>(dst, to + done, src, from + done);
    } else {
        addresses::copy(dst, to + done, src, from + done, rest);
    }
}

// Whether moves of WIDTH bytes lie within so many values and so long an image.
fn pairs_fit<const WIDTH: usize>(pairs: &[u16], values: usize, image: usize) -> bool
    requires { WIDTH ≤ 8 }
    ensures { result ≡ all_fit values image (pairs_of WIDTH pairs.now) }
{
    for pair in pairs.chunks_exact(2) {
        if values < usize::from(pair[0]) + WIDTH {
            return false;
        }
        if image < usize::from(pair[1]) + WIDTH {
            return false;
        }
    }
    true
}

// The same of moves of as many bytes as they say.
pub fn parts_fit(parts: &[u16], values: usize, image: usize) -> bool
    ensures { result ≡ all_fit values image (triples_of parts.now) }
{
    for part in parts.chunks_exact(3) {
        let bytes = usize::from(part[2]);
        if values < usize::from(part[0]) + bytes {
            return false;
        }
        if image < usize::from(part[1]) + bytes {
            return false;
        }
    }
    true
}

// Moves of WIDTH bytes, turned where they gather.
fn move_pairs<const WIDTH: usize, const TURNED: bool>(pairs: &[u16], src: &[u8], dst: &mut [u8])
    requires { all_fit (length src.now) (length dst.old) (turned_if TURNED (pairs_of WIDTH pairs.now)) ≡ true }
    ensures { dst.new ≡ move_all dst.old src.now (turned_if TURNED (pairs_of WIDTH pairs.now)) }
{
    for pair in pairs.chunks_exact(2) {
        let source = usize::from(pair[0]);
        let target = usize::from(pair[1]);
        if TURNED {
            images::copy_word::<WIDTH>(dst, source, src, target);
        } else {
            images::copy_word::<WIDTH>(dst, target, src, source);
        }
    }
}

// Moves of as many bytes as they say, turned where they gather.
pub fn move_parts<const TURNED: bool>(parts: &[u16], src: &[u8], dst: &mut [u8])
    requires { all_fit (length src.now) (length dst.old) (turned_if TURNED (triples_of parts.now)) ≡ true }
    ensures { dst.new ≡ move_all dst.old src.now (turned_if TURNED (triples_of parts.now)) }
{
    for part in parts.chunks_exact(3) {
        let source = usize::from(part[0]);
        let target = usize::from(part[1]);
        let bytes = usize::from(part[2]);
        if TURNED {
            copy_part(dst, source, src, target, bytes);
        } else {
            copy_part(dst, target, src, source, bytes);
        }
    }
}

// Whether the moves of all lists lie within so many values and so long an image.
pub fn all_fit(lists: Lists, values: usize, image: usize) -> bool
    ensures { result ≡ all_fit values image (moves_of lists.entry) }
{
    pairs_fit::<8>(lists.eights, values, image)
        && pairs_fit::<4>(lists.fours, values, image)
        && parts_fit(lists.parts, values, image)
}

// The moves of all lists, one after another.
pub fn move_all<const TURNED: bool>(lists: Lists, src: &[u8], dst: &mut [u8])
    requires { all_fit (length src.now) (length dst.old) (turned_if TURNED (moves_of lists)) ≡ true }
    ensures { dst.new ≡ move_all dst.old src.now (turned_if TURNED (moves_of lists.entry)) }
{
    move_pairs::<8, TURNED>(lists.eights, src, dst);
    move_pairs::<4, TURNED>(lists.fours, src, dst);
    move_parts::<TURNED>(lists.parts, src, dst);
}
