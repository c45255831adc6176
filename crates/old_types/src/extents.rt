// Size and alignment of one type of the 386 kind, by those of the types below it (request 2026-12).
ghost use Rattle.std.specs.Prelude.{◌≡◌, ◌<◌};
ghost use Rattle.types.specs.Decode.{ty_at, tys_from};
ghost use Rattle.old_types.specs.Basic.{basic_size, basic_align};
ghost use Rattle.old_types.specs.Asks.{Sized, SizedRun, IsExtent, IsRun};
ghost use Rattle.old_types.specs.Table.{Sizes};

use description::TypeRecord;
use types::Extent;
use units::Bytes;

// Of each code; the codes that are left out have 1.
const SIZES: [u8; 17] = [1, 1, 2, 4, 8, 1, 4, 8, 12, 1, 1, 1, 1, 1, 1, 4, 1];

const ALIGNS: [u8; 17] = [1, 1, 2, 4, 4, 1, 4, 4, 4, 1, 1, 1, 1, 1, 1, 4, 1];

// Size and alignment of a basic type.
fn basic_extent(code: usize) -> Extent
    requires { code < 17 }
    ensures { (result.size.0 ≡ basic_size code) × (result.align.0 ≡ basic_align code) }
{
    Extent {
        size: Bytes(usize::from(SIZES[code])),
        align: Bytes(usize::from(ALIGNS[code])),
    }
}

// Where `count` members of type k from place `first` on end, and the strictest alignment, by the table of the types below k.
fn members_extent(
    d: &[u8],
    k: usize,
    first: usize,
    count: usize,
    union: bool,
    table: &[u32; 64],
) -> Extent
    requires { SizedRun d.now k first count 0 1 × Sizes d.now k table.now }
    ensures { IsRun (tys_from (ty_at d.now) d.now first count) union 0 1 result }
{
    let mut size = Bytes(0);
    let mut align = Bytes(1);
    for at in first..first + count {
        let member = types::extent_in(table, description::member_at(d, at));
        size = types::end_after(union, size, member);
        align = align.max(member.align);
    }
    Extent { size, align }
}

// Size and alignment of type k, by the table of the types below it.
pub fn extent_of(d: &[u8], k: usize, table: &[u32; 64]) -> Extent
    requires { Sized d.now k × Sizes d.now k table.now }
    ensures { IsExtent (ty_at d.now k) result }
{
    match description::record_at(d, k) {
        TypeRecord::Basic { code, .. } => basic_extent(code),
        TypeRecord::Array { element, count } => {
            let one = types::extent_in(table, element);
            Extent {
                size: one.size * count,
                align: one.align,
            }
        }
        TypeRecord::Group {
            union,
            first,
            count,
        } => {
            let members = members_extent(d, k, first, count, union, table);
            Extent {
                size: members.size.raised_to(members.align),
                align: members.align,
            }
        }
    }
}
