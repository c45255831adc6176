// A mark for each type, equal for equal types: of types with different marks no part is compared, so that runs that are nearly equal cost little (document 02,
// request 2026-03, "equal ones once").
ghost use Rattle.std.specs.Prelude.{◌≡◌, ◌<◌, cond};
ghost use Rattle.description.specs.Description.{types_in};
ghost use Rattle.types.specs.Decode.{ty_at, tys_from};
ghost use Rattle.uses.specs.Uses.{uses_refusal};
ghost use Rattle.tidying.specs.Marks.{mixed, mark_ty, mark_tys, Marked, AskMarks};

use description::TypeRecord;

// A description that none of 1 to 9 refuses, with the mark of each of its types.
#[derive(Clone, Copy)]
pub struct MarkedTypes<'a> {
    pub bytes: &'a [u8],
    pub marks: &'a [u32; 64],
    ghost judged: { uses_refusal bytes.now ≡ 0 },
    ghost marked: { Marked bytes.now marks.now (types_in bytes.now) },
}

// One number more.
fn mix(mark: u32, next: u32) -> u32
    ensures { result ≡ mixed mark next }
{
    mark.wrapping_mul(2654435761).wrapping_add(next)
}

// What the mark of a struct or of a union begins with.
fn group_mark(union: bool) -> u32
    ensures { result ≡ cond union 3 2 }
{
    if union { 3 } else { 2 }
}

// The mark of `count` members from place `first` on, behind what is mixed so far.
fn mark_members(d: &[u8], marks: &[u32; 64], first: usize, count: usize, start: u32) -> u32
    requires { AskMarks d.now marks.now first count }
    ensures { result ≡ mark_tys start (tys_from (ty_at d.now) d.now first count) }
{
    let mut mark = start;
    for at in first..first + count {
        mark = mix(mark, marks[description::member_at(d, at)]);
    }
    mark
}

// The mark of type k, by those of the types below it.
fn mark_of(d: &[u8], marks: &[u32; 64], k: usize) -> u32
    requires { (uses_refusal d.now ≡ 0) × (k < types_in d.now) × Marked d.now marks.now k }
    ensures { result ≡ mark_ty (ty_at d.now k) }
{
    match description::record_at(d, k) {
        TypeRecord::Basic { code, .. } => mix(0, code as u32),
        TypeRecord::Array { element, count } => {
            let counted = mix(1, count as u32);
            mix(counted, marks[element])
        }
        TypeRecord::Group {
            union,
            first,
            count,
        } => mark_members(d, marks, first, count, group_mark(union)),
    }
}

// The marks of all types, from number 0 upward.
pub fn mark_all(d: &[u8], marks: &mut [u32; 64])
    requires { uses_refusal d.now ≡ 0 }
    ensures { Marked d.now marks.new (types_in d.now) }
{
    let types = description::byte_at(d, 5);
    for k in 0..types {
        let mark = mark_of(d, marks, k);
        marks[k] = mark;
    }
}
