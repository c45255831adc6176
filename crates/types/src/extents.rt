// Size and alignment of one type, by those of the types below it (document 01, "Size/align").
ghost use Rattle.std.specs.Prelude.{◌≡◌, ◌<◌, ◌≤◌, ◌^◌, length};
ghost use Rattle.description.specs.Description.{model_in};
ghost use Rattle.types.specs.Size.{offset_after, end_after};
ghost use Rattle.types.specs.Basic.{pointer, basic_size, basic_align};
ghost use Rattle.types.specs.Decode.{ty_at, tys_from};
ghost use Rattle.types.specs.Asks.{Sized, SizedRun, IsExtent, IsRun};
ghost use Rattle.types.specs.Table.{Sizes};

use crate::{Extent, table_entries};
use description::{Model, TypeRecord};
use units::Bytes;

// Where a member goes, of a union or of a struct, those before it ending at `end`.
#[tactic(auto, unfolding(crate::specs::Size::offset_after))]
pub fn offset_after(union: bool, end: Bytes, align: Bytes) -> Bytes
    requires { (end.0 ≤ 2 ^ 32) × ((0 < align.0) × (align.0 ≤ 32)) }
    ensures { result.0 ≡ offset_after union end.0 align.0 }
{
    if union {
        Bytes(0)
    } else {
        end.raised_to(align)
    }
}

// Where the members end after one more.
pub fn end_after(union: bool, end: Bytes, member: Extent) -> Bytes
    requires { ((end.0 ≤ 2 ^ 32) × (member.size.0 ≤ 4096)) × ((0 < member.align.0) × (member.align.0 ≤ 32)) }
    ensures { result.0 ≡ end_after union end.0 member.align.0 member.size.0 }
{
    end.max(offset_after(union, end, member.align) + member.size)
}

// ---- one type

// Size and alignment of each code; those of a pointer, which the model changes, are not read. A static: a const is made anew at each look.
static BASIC: [(u8, u8); 17] = [
    (1, 1), // _Bool
    (1, 1), // char
    (2, 2), // short
    (4, 4), // int
    (8, 8), // long or long long
    (16, 16), // __int128
    (4, 4), // float
    (8, 8), // double
    (16, 16), // long double
    (16, 16), // __float128
    (8, 8), // __m64
    (16, 16), // __m128
    (8, 4), // complex float
    (16, 8), // complex double
    (32, 16), // complex long double
    (8, 8), // pointer
    (32, 32), // __m256
];

// Size and alignment of a pointer.
fn pointer_extent(model: Model) -> Extent
    ensures { (result.size.0 ≡ pointer model) × (result.align.0 ≡ pointer model) }
{
    match model {
        Model::Lp64 => Extent {
            size: Bytes(8),
            align: Bytes(8),
        },
        Model::Ilp32 => Extent {
            size: Bytes(4),
            align: Bytes(4),
        },
    }
}

// Size and alignment of a basic type. The model is looked up for a pointer alone: any other type pays one test for it.
fn basic_extent(d: &[u8], code: usize) -> Extent
    requires { (11 ≤ length d.now) × (code < 17) }
    ensures { (result.size.0 ≡ basic_size (model_in d.now) code) × (result.align.0 ≡ basic_align (model_in d.now) code) }
{
    if code == 15 {
        return pointer_extent(description::model_of(d));
    }
    let (size, align) = BASIC[code];
    Extent {
        size: Bytes(usize::from(size)),
        align: Bytes(usize::from(align)),
    }
}

// Where `count` members of type k from place `first` on end, and the strictest alignment, by the table of the types below k.
fn members_extent(
    d: &[u8],
    k: usize,
    first: usize,
    count: usize,
    union: bool,
    table: &[u32; 64],
) -> Extent
    requires { SizedRun (model_in d.now) d.now k first count 0 1 × Sizes (model_in d.now) d.now k table.now }
    ensures { IsRun (model_in d.now) (tys_from (ty_at d.now) d.now first count) union 0 1 result }
{
    let mut size = Bytes(0);
    let mut align = Bytes(1);
    for at in first..first + count {
        let member = table_entries::extent_in(table, description::member_at(d, at));
        size = end_after(union, size, member);
        align = align.max(member.align);
    }
    Extent { size, align }
}

// Size and alignment of type k, by the table of the types below it.
pub fn extent_of(d: &[u8], k: usize, table: &[u32; 64]) -> Extent
    requires { Sized (model_in d.now) d.now k × Sizes (model_in d.now) d.now k table.now }
    ensures { IsExtent (model_in d.now) (ty_at d.now k) result }
{
    match description::record_at(d, k) {
        TypeRecord::Basic { code, .. } => basic_extent(d, code),
        TypeRecord::Array { element, count } => {
            let one = table_entries::extent_in(table, element);
            Extent {
                size: one.size * count,
                align: one.align,
            }
        }
        TypeRecord::Group {
            union,
            first,
            count,
        } => {
            let members = members_extent(d, k, first, count, union, table);
            Extent {
                size: members.size.raised_to(members.align),
                align: members.align,
            }
        }
    }
}
