// The verdict on any bytes, 1 to 10, and the layout of those that get none (document 01, "Places", "Refusal numbers").
ghost use Rattle.std.specs.Prelude.{◌≡◌, ◌≤◌, IfOk};
ghost use Rattle.description.specs.Description.{arguments_in};
ghost use Rattle.form.specs.Reading.{judgment};
ghost use Rattle.types.specs.Wrong.{refusal_for};
ghost use Rattle.classify.specs.Table.{Tabled};
ghost use Rattle.uses.specs.Uses.{uses_refusal};
ghost use Rattle.layout.specs.Arguments.{used_at};
ghost use Rattle.layout.specs.Layout.{layout_of, layout_answer, check_answer, table_after};
ghost use Rattle.layout.specs.Verdict.{verdict};

use crate::{Described, Laying, Layout};
use form::{Reason, Refusal};
use places::Used;
use units::Bytes;

impl<'a> Described<'a> {
    // What is used after the first n arguments, and the hidden address.
    pub fn used_after(self, n: usize) -> Used
        requires { n ≤ arguments_in self.bytes.now }
        ensures { result ≡ used_at self.entry.bytes.now n }
    {
        let named = self.named().min(n);
        let mut laying = Laying::fresh(self.hidden());
        self.lay_more(0, named, true, &mut laying);
        self.lay_more(named, n, false, &mut laying);
        laying.used
    }

    // The layout.
    fn layout(self) -> Layout
        ensures { result ≡ layout_of self.entry.bytes.now }
    {
        let hidden = self.hidden();
        let mut laying = Laying::fresh(hidden);
        self.lay_more(0, self.named(), true, &mut laying);
        let named = laying.used;
        self.lay_more(self.named(), self.arguments(), false, &mut laying);
        let Laying { used, values } = laying;
        Layout {
            used,
            area: used.area(),
            align: used.area_align(),
            values,
            returns: self.returns(),
            returned: self.returned_size(),
            hidden,
            named,
        }
    }
}

// ---- any bytes

// Which of 1 to 9 refuses any bytes. Where none does, the table holds what is known of each type.
pub(crate) fn judge(d: &[u8], table: &mut [u32; 64]) -> Result<(), Refusal>
    ensures { (result ≡ judgment (uses_refusal d.now) (refusal_for d.now (uses_refusal d.now)))
        × (table.new ≡ table_after d.now table.old)
        × (uses_refusal d.now ≡ 0 → Tabled d.now table.new)
        × IfOk result (λ _. (uses_refusal d.now ≡ 0) × Tabled d.now table.new) }
{
    uses::judge(d, table)?;
    classify::fill_classes(d, table);
    Ok(())
}

// The layout of any bytes, or which of 1 to 10 refuses them. Where none does, the table holds what is known of each type.
pub fn layout_with(d: &[u8], table: &mut [u32; 64]) -> Result<Layout, Refusal>
    ensures { (result ≡ layout_answer d.now)
        × (table.new ≡ table_after d.now table.old)
        × (verdict d.now ≡ 0 → Tabled d.now table.new)
        × IfOk result (λ layout. (layout ≡ layout_of d.now) × (verdict d.now ≡ 0) × (uses_refusal d.now ≡ 0) × Tabled d.now table.new) }
{
    judge(d, table)?;
    let layout = Described { bytes: d, table }.layout();
    if layout.area > Bytes(16384) {
        return Err(Refusal::from(Reason::AreaTooLarge));
    }
    Ok(layout)
}

// The layout of any bytes, or which of 1 to 10 refuses them.
pub fn layout_of(d: &[u8]) -> Result<Layout, Refusal>
    ensures { result ≡ layout_answer d.now }
{
    let mut table = [0u32; 64];
    layout_with(d, &mut table)
}

// ---- the verdict alone

// Which of the refusals 1 to 10 the description gets.
pub fn check(d: &[u8]) -> Result<(), Refusal>
    ensures { result ≡ check_answer d.now }
{
    layout_of(d)?;
    Ok(())
}
