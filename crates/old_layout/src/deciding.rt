// The verdict on any bytes as a description of the 386 kind, and the layout of those that get none (request 2026-12).
ghost use Rattle.std.specs.Prelude.{◌≡◌};
ghost use Rattle.description.specs.Description.{types_in};
ghost use Rattle.form.specs.Reading.{judgment};
ghost use Rattle.old_types.specs.Conditions.{refusal_for};
ghost use Rattle.old_types.specs.Table.{Sizes, sizes_after};
ghost use Rattle.intel386.specs.Verdict.{uses_refusal, verdict};
ghost use Rattle.old_layout.specs.Layout.{layout_answer};

use crate::OldLayout;
use crate::described::OldDescribed;
use form::{Reason, Refusal};
use units::Bytes;

// Which of 1 to 6, 28 and 7 to 9 refuses the description: 8 and 9 are document 01's. Where none does, the table has an entry for each type.
fn judge(d: &[u8], table: &mut [u32; 64]) -> Result<(), Refusal>
    ensures { (result ≡ judgment (uses_refusal d.now) (refusal_for d.now (uses_refusal d.now)))
        × (table.new ≡ sizes_after d.now table.old)
        × (uses_refusal d.now ≡ 0 → Sizes d.now (types_in d.now) table.new) }
{
    old_types::judge(d, table)?;
    uses::judge_passing(d)
}

// ---- any bytes

// The layout of any bytes, or which of 1 to 6, 28 and 7 to 10 refuses them. Where none does, the table holds each type's size and alignment.
pub fn old_layout_with(d: &[u8], table: &mut [u32; 64]) -> Result<OldLayout, Refusal>
    ensures { (result ≡ layout_answer d.now)
        × (table.new ≡ sizes_after d.now table.old)
        × (verdict d.now ≡ 0 → Sizes d.now (types_in d.now) table.new) }
{
    judge(d, table)?;
    let layout = OldDescribed { bytes: d, table }.layout();
    if layout.area > Bytes(16384) {
        return Err(Refusal::from(Reason::AreaTooLarge));
    }
    Ok(layout)
}

// The layout of any bytes, or their refusal.
pub fn old_layout_of(d: &[u8]) -> Result<OldLayout, Refusal>
    ensures { result ≡ layout_answer d.now }
{
    let mut table = [0u32; 64];
    old_layout_with(d, &mut table)
}

// ---- the verdict alone

// Which refusal the description gets.
pub fn old_check(d: &[u8]) -> Result<(), Refusal>
    ensures { result ≡ judgment (verdict d.now) (refusal_for d.now (verdict d.now)) }
{
    old_layout_of(d)?;
    Ok(())
}
