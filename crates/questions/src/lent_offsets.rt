// The offsets of a struct's or a union's members (document 01, "A struct member has the lowest aligned offset after the one before"), into a list
// that the caller lends.
ghost use Rattle.std.specs.Prelude.{◌≡◌, length, eqb};
ghost use Rattle.description.specs.Description.{kind_at, count_at, Parts};
ghost use Rattle.form.specs.Reading.{judgment};
ghost use Rattle.types.specs.Table.{filled};
ghost use Rattle.types.specs.Wrong.{refusal_for};
ghost use Rattle.questions.specs.Offsets.{AskOffsets, OffsetAt, offsets_refusal, offsets_after};

use crate::refusals;
use description::TypeRecord;
use form::{Reason, Refusal};
use units::Bytes;

// The offset of each of the `count` members of type k, which stand from place `first` on, by the table of all sizes.
fn write_offsets(
    d: &[u8],
    k: usize,
    union: bool,
    first: usize,
    count: usize,
    table: &[u32; 64],
    offsets: &mut [usize],
)
    requires { AskOffsets d.now k table.now (length offsets.old) × (union ≡ eqb (kind_at d.now k) 3) × Parts d.now k first count }
    ensures { offsets.new ≡ filled (OffsetAt d.now k) (count_at d.now k) offsets.old }
{
    let mut end = Bytes(0);
    for i in 0..count {
        let member = types::extent_in(table, description::member_at(d, first + i));
        let offset = types::offset_after(union, end, member.align);
        offsets[i] = offset.0;
        end = end.max(offset + member.size);
    }
}

// The offsets of type t's members into the list, or its refusal; entries past them stay. A basic type and an array have no members.
pub fn member_offsets(d: &[u8], t: u8, offsets: &mut [usize]) -> Result<(), Refusal>
    ensures { (result ≡ judgment (offsets_refusal d.now t (length offsets.old)) (refusal_for d.now (offsets_refusal d.now t (length offsets.old))))
        × (offsets.new ≡ offsets_after d.now t offsets.old) }
{
    let mut table = [0u32; 64];
    refusals::judge(d, t, &mut table)?;
    let k = t as usize;
    let TypeRecord::Group {
        union,
        first,
        count,
    } = description::record_at(d, k)
    else {
        return Ok(());
    };
    if offsets.len() < count {
        return Err(Refusal::from(Reason::WrongBuffer));
    }
    write_offsets(d, k, union, first, count, &table, offsets);
    Ok(())
}
