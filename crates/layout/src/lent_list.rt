// The list of placement records that the caller lends (document 01, "Places"): whether it is filled, 11 for one that is too short, and one record for each argument.
ghost use Rattle.std.specs.Prelude.{◌≡◌, ◌≤◌, length, IfOk};
ghost use Rattle.description.specs.Description.{arguments_in};
ghost use Rattle.classify.specs.Table.{Tabled};
ghost use Rattle.uses.specs.Uses.{uses_refusal};
ghost use Rattle.layout.specs.Verdict.{verdict};
ghost use Rattle.layout.specs.Layout.{layout_of, table_after};
ghost use Rattle.layout.specs.Placements.{placement_at};
ghost use Rattle.layout.specs.Lists.{list_answer, list_count, filled};

use crate::{Described, Laying, Layout, Placement, deciding};
use form::{Reason, Refusal};

// Decides whether a list of `room` records is to be filled: 1 to 10, then 11 for a list that is shorter than A. With
// `place_argument` it serves a caller that has no list to lend: that caller's table has what the records are made of.
pub fn begin_with(d: &[u8], room: usize, table: &mut [u32; 64]) -> Result<Layout, Refusal>
    ensures { (result ≡ list_answer d.now room)
        × (table.new ≡ table_after d.now table.old)
        × (verdict d.now ≡ 0 → Tabled d.now table.new)
        × IfOk result (λ layout. (layout ≡ layout_of d.now) × (arguments_in d.now ≤ room) × (uses_refusal d.now ≡ 0) × Tabled d.now table.new) }
{
    let layout = deciding::layout_with(d, table)?;
    let described = Described { bytes: d, table };
    if room < described.arguments() {
        return Err(Refusal::from(Reason::WrongBuffer));
    }
    Ok(layout)
}

// Fills the list that the caller lends with one record for each argument; entries past A stay, and so does the whole list where
// the answer is a refusal.
pub fn lay_out(d: &[u8], list: &mut [Placement]) -> Result<Layout, Refusal>
    ensures { (result ≡ list_answer d.now (length list.old))
        × (list.new ≡ filled (placement_at d.now) (list_count d.now (length list.old)) list.old) }
{
    let mut table = [0u32; 64];
    let layout = begin_with(d, list.len(), &mut table)?;
    let described = Described {
        bytes: d,
        table: &table,
    };
    let mut laying = Laying::fresh(layout.hidden);
    for i in 0..described.arguments() {
        list[i] = described.place_argument(i, &mut laying);
    }
    Ok(layout)
}
