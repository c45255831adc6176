// The table of all sizes and alignments, and which of the refusals 1 to 6, 28 and 7 any bytes get, with the type that 6 and 7 name (request 2026-12).
ghost use Rattle.std.specs.Prelude.{◌≡◌};
ghost use Rattle.description.specs.Description.{types_in};
ghost use Rattle.form.specs.Reading.{judgment};
ghost use Rattle.form.specs.Search.{first_within};
ghost use Rattle.types.specs.Table.{filled};
ghost use Rattle.old_types.specs.Conditions.{large, first_large, kept_refusal, types_refusal, refusal_for};
ghost use Rattle.old_types.specs.Table.{entry_at, Sizes, sizes_after};

use crate::{conditions, extents};
use form::{Reason, Refusal};
use units::Bytes;

// Which of the refusals 1 to 6 and 28 the description gets, and of 6 the lowest type that breaks the rule.
fn judge_kept(d: &[u8]) -> Result<(), Refusal>
    ensures { result ≡ judgment (kept_refusal d.now) (refusal_for d.now (kept_refusal d.now)) }
{
    conditions::judge_form(d)?;
    if conditions::has_omitted(d) {
        return Err(Refusal::from(Reason::OmittedCode));
    }
    Ok(())
}

// The number alone, or 0.
pub fn kept_refusal(d: &[u8]) -> u8
    ensures { result ≡ kept_refusal d.now }
{
    match judge_kept(d) {
        Ok(()) => 0,
        Err(refusal) => refusal.number,
    }
}

// Works the table out from number 0 upward, up to the first type of more than 4,096 bytes, which is the answer. Each size that
// a later type is made of is at most 4,096, so that no sum and no product overflows.
fn fill_sizes(d: &[u8], table: &mut [u32; 64]) -> Option<usize>
    requires { kept_refusal d.now ≡ 0 }
    ensures { (result ≡ first_within (large d.now) 0 (types_in d.now))
        × (table.new ≡ filled (entry_at d.now) (first_large d.now) table.old)
        × Sizes d.now (first_large d.now) table.new }
{
    for k in 0..description::byte_at(d, 5) {
        let extent = extents::extent_of(d, k, table);
        if Bytes(4096) < extent.size {
            return Some(k);
        }
        table[k] = types::entry_of(extent);
    }
    None
}

// ---- 1 to 6, 28 and 7

// Which of them the description gets, and of 6 and 7 the lowest type that breaks the rule; nothing where it gets none: then the
// table has an entry for each type.
pub fn judge(d: &[u8], table: &mut [u32; 64]) -> Result<(), Refusal>
    ensures { (result ≡ judgment (types_refusal d.now) (refusal_for d.now (types_refusal d.now)))
        × (table.new ≡ sizes_after d.now table.old)
        × (types_refusal d.now ≡ 0 → Sizes d.now (types_in d.now) table.new) }
{
    judge_kept(d)?;
    match fill_sizes(d, table) {
        Some(k) => Err(Refusal::of_type(Reason::TooLarge, k)),
        None => Ok(()),
    }
}
