// Putting and taking a returned value by a plan: 30, 11, 27 and 12, then its two moves.
ghost use Rattle.std.specs.Prelude.{◌≡◌, length};
ghost use Rattle.returning.specs.Image.{blank_return};
ghost use Rattle.plans.specs.Returned.{broken_returned, put_refusal_by, take_refusal_by, put_answer_by, return_image_by, take_answer_by, returned_after_by};
ghost use Rattle.by_plan.specs.Judged.{judged};

use crate::head::Plan;
use crate::moves;
use form::{Reason, Refusal};

// ---- 30, 11, 27 and 12

// 12: whether a _Bool is returned whose byte is not 0 or 1.
fn broken_returned(plan: Plan, value: &[u8]) -> bool
    ensures { result ≡ broken_returned plan.entry.numbers.now value.now }
{
    plan.at(9) != 0 && !value.is_empty() && 1 < value[0]
}

// Which refusal taking gets: 30 where the two moves lie not within the value and the return images, 11.
fn judge_taking(plan: Plan, value: usize, image: usize) -> Result<(), Refusal>
    ensures { result ≡ judged (take_refusal_by plan.entry.numbers.now value image) }
{
    if !moves::parts_fit(plan.returned(), plan.at(8), 96) {
        return Err(Refusal::from(Reason::NoPlan));
    }
    if value != plan.at(8) || image != 96 {
        return Err(Refusal::from(Reason::WrongBuffer));
    }
    Ok(())
}

// Which refusal putting gets: 30, 11, 27, 12 in this order.
fn judge_putting(plan: Plan, hidden: u64, value: &[u8], image: usize) -> Result<(), Refusal>
    ensures { result ≡ judged (put_refusal_by plan.entry.numbers.now hidden value.now image) }
{
    judge_taking(plan, value.len(), image)?;
    if plan.wide_address(hidden) {
        return Err(Refusal::from(Reason::HiddenTooWide));
    }
    if broken_returned(plan, value) {
        return Err(Refusal::from(Reason::WrongBool));
    }
    Ok(())
}

// ---- putting and taking

// Zeros, and the hidden address in rax where the value is in memory.
fn blank_return(memory: bool, hidden: u64, image: &mut [u8])
    requires { length image.old ≡ 96 }
    ensures { image.new ≡ blank_return memory hidden }
{
    addresses::clear(image);
    if memory {
        images::put_address(image, hidden);
    }
}

// Puts a returned value by a plan of any numbers: every byte of the return images is written, or none.
pub fn put_by_plan(plan: &[u16], hidden: u64, value: &[u8], image: &mut [u8]) -> Result<(), Refusal>
    ensures { (result ≡ put_answer_by plan.now hidden value.now (length image.old))
        × (image.new ≡ return_image_by plan.now hidden value.now image.old) }
{
    let head = Plan::new(plan)?;
    judge_putting(head, hidden, value, image.len())?;
    blank_return(head.uses_address(), hidden, image);
    moves::move_parts::<{ moves::PLACING }>(head.returned(), value, image);
    Ok(())
}

// Takes a returned value by a plan of any numbers, and answers the hidden address.
pub fn take_by_plan(plan: &[u16], image: &[u8], value: &mut [u8]) -> Result<u64, Refusal>
    ensures { (result ≡ take_answer_by plan.now image.now (length value.old))
        × (value.new ≡ returned_after_by plan.now image.now value.old) }
{
    let head = Plan::new(plan)?;
    judge_taking(head, value.len(), image.len())?;
    addresses::clear(value);
    moves::move_parts::<{ moves::GATHERING }>(head.returned(), image, value);
    Ok(head.address_in(image))
}
