// The questions about one type of the 386 kind (request 2026-12): its size and alignment, and the part of the description that holds its run of members; 1 to 6, 28, 7, then 8.
ghost use Rattle.std.specs.Prelude.{◌≡◌, length};
ghost use Rattle.description.specs.Description.{types_in};
ghost use Rattle.form.specs.Reading.{judgment};
ghost use Rattle.questions.specs.Runs.{RunFits, run_in};
ghost use Rattle.old_types.specs.Conditions.{refusal_for};
ghost use Rattle.old_types.specs.Table.{Sizes, sizes_after};
ghost use Rattle.old_types.specs.Questions.{question_refusal, extent_answer, run_answer};

use crate::refusals;
use description::TypeRecord;
use form::{Reason, Refusal};
use types::Extent;
use units::Bytes;

// Which refusal a question about type t gets; nothing where it gets none: then the table has an entry for each type.
fn judge(d: &[u8], t: u8, table: &mut [u32; 64]) -> Result<(), Refusal>
    ensures { (result ≡ judgment (question_refusal d.now t) (refusal_for d.now (question_refusal d.now t)))
        × (table.new ≡ sizes_after d.now table.old)
        × (question_refusal d.now t ≡ 0 → Sizes d.now (types_in d.now) table.new) }
{
    refusals::judge(d, table)?;
    if d[5] <= t {
        return Err(Refusal::from(Reason::WrongNumber));
    }
    Ok(())
}

// Size and alignment of type t.
pub fn old_extent(d: &[u8], t: u8) -> Result<Extent, Refusal>
    ensures { result ≡ extent_answer d.now t }
{
    let mut table = [0u32; 64];
    judge(d, t, &mut table)?;
    Ok(types::extent_in(&table, t as usize))
}

// ---- the run of members

// Where type t's run of members lies in the description: its offset, and how many there are. A basic type and an array have none.
pub fn old_run_at(d: &[u8], t: u8) -> Result<Option<(Bytes, usize)>, Refusal>
    ensures { (result ≡ run_answer d.now t) × RunFits result (length d.now) }
{
    let mut table = [0u32; 64];
    judge(d, t, &mut table)?;
    match description::record_at(d, t as usize) {
        TypeRecord::Group { first, count, .. } => {
            let types = usize::from(d[5]);
            Ok(Some((Bytes(11 + 4 * types + first), count)))
        }
        _ => Ok(None),
    }
}

// The part of the description that holds type t's run; empty for a refusal or another kind.
pub fn old_member_run(d: &[u8], t: u8) -> &[u8]
    ensures { result.now ≡ run_in (run_answer d.now t) d.now }
{
    match old_run_at(d, t) {
        Ok(Some((offset, count))) => &d[offset.0..offset.0 + count],
        _ => &d[..0],
    }
}
