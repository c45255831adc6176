// The calls: a returned value into the two return images, and out of them (document 02, requests 2026-02 and 2026-06).
ghost use Rattle.std.specs.Prelude.{◌≡◌, length};
ghost use Rattle.returning.specs.Answers.{put_answer, image_after, upper_after, take_answer, value_after};

use crate::{refusals, return_image};
use form::{Reason, Refusal};

// Puts a returned value into the return images: every byte of them is written, or none. The hidden address is looked at only where
// the value is in memory.
pub fn put_returned(
    d: &[u8],
    hidden: u64,
    value: &[u8],
    image: &mut [u8],
    upper: &mut [u8],
) -> Result<(), Refusal>
    ensures { (result ≡ put_answer d.now hidden value.now (length image.old) (length upper.old))
        × ((image.new ≡ image_after d.now hidden value.now image.old upper.old)
        × (upper.new ≡ upper_after d.now hidden value.now image.old upper.old)) }
{
    let layout = layout::layout_of(d)?;
    let place = layout.returns;
    let right = return_image::length_for(place, layout.returned);
    if refusals::wrong_length(right.0, value.len(), image.len(), upper.len()) {
        return Err(Refusal::from(Reason::WrongBuffer));
    }
    if moving::wrong_address(d, layout.hidden, hidden) {
        return Err(Refusal::from(Reason::HiddenTooWide));
    }
    if refusals::wrong_bool(d, value) {
        return Err(Refusal::from(Reason::WrongBool));
    }
    return_image::put_value(place, hidden, value, image, upper);
    Ok(())
}

// Takes the returned value out of the return images, and answers the hidden address.
pub fn take_returned(d: &[u8], image: &[u8], upper: &[u8], value: &mut [u8]) -> Result<u64, Refusal>
    ensures { (result ≡ take_answer d.now image.now upper.now (length value.old))
        × (value.new ≡ value_after d.now image.now upper.now value.old) }
{
    let layout = layout::layout_of(d)?;
    let place = layout.returns;
    let right = return_image::length_for(place, layout.returned);
    if refusals::wrong_length(right.0, value.len(), image.len(), upper.len()) {
        return Err(Refusal::from(Reason::WrongBuffer));
    }
    return_image::take_value(place, image, upper, value);
    Ok(return_image::returned_address(place, image))
}
