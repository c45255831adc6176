// A description of the 386 kind that none of 1 to 6, 28 and 7 to 9 refuses (request 2026-12).
ghost use Rattle.old_layout.specs.Asks.{Known};

// Its bytes, and the table of its types' sizes and alignments.
#[derive(Clone, Copy)]
pub struct OldDescribed<'a> {
    pub bytes: &'a [u8],
    pub table: &'a [u32; 64],
    ghost known: { Known bytes.now table.now },
}
