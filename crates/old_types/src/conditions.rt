// What the Intel386 refuses of a description's form: bit 1 of byte 6, under 4, and a basic code that is left out, 28 (request 2026-12).
ghost use Rattle.std.specs.Prelude.{◌≡◌, ◌≤◌, ◌<◌, cond, ltb, length, Err};
ghost use Rattle.description.specs.Description.{types_in, flags_in, Whole};
ghost use Rattle.form.specs.Reading.{judgment, refusal_of};
ghost use Rattle.old_types.specs.Basic.{left_code};
ghost use Rattle.old_types.specs.Conditions.{form_refusal, omitted, left_out, refusal_for};

use description::TypeRecord;
use form::{Reason, Refusal};

// This answer, or 4 where bit 1 of byte 6, or one above it, is set.
fn with_flags(d: &[u8], judged: Result<(), Refusal>) -> Result<(), Refusal>
    requires { 11 ≤ length d.now }
    ensures { result ≡ cond (ltb 1 (flags_in d.now)) (Err (refusal_of 4)) judged }
{
    if 1 < d[6] {
        return Err(Refusal::from(Reason::WrongCounts));
    }
    judged
}

// Which of the refusals 1 to 6 the description gets. Those of document 01 before 5 stand before bit 1 too.
pub fn judge_form(d: &[u8]) -> Result<(), Refusal>
    ensures { result ≡ judgment (form_refusal d.now) (refusal_for d.now (form_refusal d.now)) }
{
    match form::judge(d) {
        Ok(()) => with_flags(d, Ok(())),
        Err(refusal) => {
            if refusal.number < 5 {
                Err(refusal)
            } else {
                with_flags(d, Err(refusal))
            }
        }
    }
}

// ---- 28

// A vector, a type of 16 bytes, or a complex type.
#[tactic(auto, unfolding(crate::specs::Basic::left_code))]
fn is_left_code(code: usize) -> bool
    ensures { result ≡ left_code code }
{
    code == 5 || (9 <= code && code <= 14) || code == 16
}

#[tactic(auto, unfolding(crate::specs::Conditions::omitted))]
fn is_omitted(d: &[u8], k: usize) -> bool
    requires { Whole d.now × (k < types_in d.now) }
    ensures { result ≡ omitted d.now k }
{
    match description::record_at(d, k) {
        TypeRecord::Basic { code, .. } => is_left_code(code),
        _ => false,
    }
}

// Whether the own code of a type is left out.
pub fn has_omitted(d: &[u8]) -> bool
    requires { Whole d.now }
    ensures { result ≡ left_out d.now }
{
    (0..description::byte_at(d, 5)).any(|k| is_omitted(d, k))
}
