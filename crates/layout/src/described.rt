// A description that none of the refusals 1 to 9 is for, and what is known of its types: what arguments are placed by (document 01, "Places").
ghost use Rattle.std.specs.Prelude.{◌≡◌};
ghost use Rattle.uses.specs.Uses.{uses_refusal};
ghost use Rattle.classify.specs.Table.{Tabled};

// Its bytes, and the table that `layout_with` fills: size, alignment and classes of each type.
#[derive(Clone, Copy)]
pub struct Described<'a> {
    pub bytes: &'a [u8],
    pub table: &'a [u32; 64],
    ghost judged: { uses_refusal bytes.now ≡ 0 },
    ghost tabled: { Tabled bytes.now table.now },
}
