// The calls (document 02, request 2026-03): the tidy form of any bytes, and its length, which the host's buffer must have.
ghost use Rattle.std.specs.Prelude.{◌≡◌, ◌≢◌, length, MatchResult};
ghost use Rattle.types.specs.Wrong.{refusal_for};
ghost use Rattle.tidying.specs.Answers.{length_refusal, length_answer, tidy_answer, tidy_after};

use crate::marking;
use crate::marking::MarkedTypes;
use crate::writing::Tidied;
use form::{Reason, Refusal};
use units::Bytes;

// The types of any bytes that can be tidied, numbered: 1 to 10 refuse them, then 29. There has to be room for the marks.
fn number_types<'a>(d: &'a [u8], marks: &'a mut [u32; 64]) -> Result<Tidied<'a>, Refusal>
    ensures { MatchResult result
        (λ tidied. (length_refusal d.now ≡ 0) × (tidied.numbering.types.bytes.now ≡ d.now))
        (λ refusal. (length_refusal d.now ≢ 0) × (refusal ≡ refusal_for d.now (length_refusal d.now))) }
{
    layout::check(d)?;
    marking::mark_all(d, marks);
    Tidied::of_call(MarkedTypes { bytes: d, marks })
}

// How many bytes the tidy form of a description has, or which of 1 to 10 and 29 refuses it.
pub fn tidy_length(d: &[u8]) -> Result<Bytes, Refusal>
    ensures { result ≡ length_answer d.now }
{
    let mut marks = [0u32; 64];
    let tidied = number_types(d, &mut marks)?;
    Ok(Bytes(tidied.length()))
}

// The tidy form of a description, written to a buffer of exactly its length; a refusal leaves the buffer as it is.
pub fn tidy(d: &[u8], out: &mut [u8]) -> Result<(), Refusal>
    ensures { (result ≡ tidy_answer d.now (length out.old)) × (out.new ≡ tidy_after d.now out.old) }
{
    let mut marks = [0u32; 64];
    let tidied = number_types(d, &mut marks)?;
    let length = tidied.length();
    if out.len() != length {
        return Err(Refusal::from(Reason::WrongBuffer));
    }
    tidied.write(out);
    Ok(())
}
