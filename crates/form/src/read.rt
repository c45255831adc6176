// Reading the form of any bytes: the refusals 1 to 6 in their order, or the header (document 01, "Refusal numbers").
ghost use Rattle.std.specs.Prelude.{◌≡◌};
ghost use Rattle.form.specs.Order.{form_refusal};
ghost use Rattle.form.specs.Reading.{judgment, form_refused, reading_of};

use crate::{Reason, Refusal, conditions};
use description::Header;

// Which of the refusals 1 to 6 the description gets, and of 6 the lowest type that breaks the rule; nothing where its form is good.
pub fn judge(d: &[u8]) -> Result<(), Refusal>
    ensures { result ≡ judgment (form_refusal d.now) (form_refused d.now) }
{
    if d.len() < 11 {
        return Err(Refusal::from(Reason::TooShort));
    }
    if conditions::wrong_mark(d) {
        return Err(Refusal::from(Reason::WrongMark));
    }
    if conditions::wrong_version(d) {
        return Err(Refusal::from(Reason::WrongVersion));
    }
    if conditions::wrong_counts(d) {
        return Err(Refusal::from(Reason::WrongCounts));
    }
    if conditions::wrong_length(d) {
        return Err(Refusal::from(Reason::WrongLength));
    }
    if let Some(k) = conditions::first_broken(d) {
        return Err(Refusal::of_type(Reason::WrongRecord, k));
    }
    Ok(())
}

// The header of a description of good form, or its refusal among 1 to 6.
#[tactic(auto, unfolding(crate::specs::Reading::reading_of))]
pub fn read_form(d: &[u8]) -> Result<Header, Refusal>
    ensures { result ≡ reading_of d.now }
{
    judge(d)?;
    Ok(description::header_of(d))
}
