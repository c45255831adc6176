// The table of all sizes and alignments, and which of the refusals 1 to 7 any bytes get, with the type that 6 and 7 name (document 01, "Refusal numbers").
ghost use Rattle.std.specs.Prelude.{◌≡◌};
ghost use Rattle.form.specs.Order.{form_refusal};
ghost use Rattle.form.specs.Reading.{judgment};
ghost use Rattle.form.specs.Search.{first_within};
ghost use Rattle.types.specs.Large.{large, first_large, types_refusal};
ghost use Rattle.types.specs.Table.{entry_at, filled, Sizes, sizes_after};
ghost use Rattle.description.specs.Description.{types_in, model_in};
ghost use Rattle.types.specs.Wrong.{refusal_for};

use crate::{extents, table_entries};
use form::{Reason, Refusal};
use units::Bytes;

// Works the table out from number 0 upward, up to the first type of more than 4,096 bytes, which is the answer. Each size that
// a later type is made of is at most 4,096, so that no sum and no product overflows.
fn fill_sizes(d: &[u8], table: &mut [u32; 64]) -> Option<usize>
    requires { form_refusal d.now ≡ 0 }
    ensures { (result ≡ first_within (large (model_in d.now) d.now) 0 (types_in d.now))
        × (table.new ≡ filled (entry_at (model_in d.now) d.now) (first_large (model_in d.now) d.now) table.old)
        × Sizes (model_in d.now) d.now (first_large (model_in d.now) d.now) table.new }
{
    for k in 0..description::byte_at(d, 5) {
        let extent = extents::extent_of(d, k, table);
        if Bytes(4096) < extent.size {
            return Some(k);
        }
        table[k] = table_entries::entry_of(extent);
    }
    None
}

// ---- refusals 1 to 7

// Which of the refusals 1 to 7 the description gets, and of 6 and 7 the lowest type that breaks the rule; nothing where it gets
// none: then the table has an entry for each type.
pub fn judge(d: &[u8], table: &mut [u32; 64]) -> Result<(), Refusal>
    ensures { (result ≡ judgment (types_refusal d.now) (refusal_for d.now (types_refusal d.now)))
        × (table.new ≡ sizes_after d.now table.old)
        × (types_refusal d.now ≡ 0 → Sizes (model_in d.now) d.now (types_in d.now) table.new) }
{
    form::judge(d)?;
    match fill_sizes(d, table) {
        Some(k) => Err(Refusal::of_type(Reason::TooLarge, k)),
        None => Ok(()),
    }
}
