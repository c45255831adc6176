// Size and alignment of a type, both or one (document 01, "A question about one type").
ghost use Rattle.std.specs.Prelude.{◌≡◌};
ghost use Rattle.questions.specs.Questions.{size_answer, align_answer, extent_answer};

use crate::refusals;
use form::Refusal;
use types::Extent;
use units::Bytes;

// ---- both

// Size and alignment of type t.
pub fn type_extent(d: &[u8], t: u8) -> Result<Extent, Refusal>
    ensures { result ≡ extent_answer d.now t }
{
    let mut table = [0u32; 64];
    refusals::judge(d, t, &mut table)?;
    Ok(types::extent_in(&table, t as usize))
}

// ---- one alone

// How many bytes type t has.
pub fn type_size(d: &[u8], t: u8) -> Result<Bytes, Refusal>
    ensures { result ≡ size_answer (extent_answer d.now t) }
{
    Ok(type_extent(d, t)?.size)
}

// What type t's offset must be a multiple of.
pub fn type_align(d: &[u8], t: u8) -> Result<Bytes, Refusal>
    ensures { result ≡ align_answer (extent_answer d.now t) }
{
    Ok(type_extent(d, t)?.align)
}
