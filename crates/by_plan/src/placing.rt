// Placing by a plan: 30, 11, 27 and 12, then zeros, the hidden address, and each move.
ghost use Rattle.std.specs.Prelude.{◌≡◌, [], ◌-◌, ◌≤◌, length};
ghost use Rattle.addresses.specs.Copy.{cleared};
ghost use Rattle.moving.specs.Frames.{empty_in};
ghost use Rattle.moving.specs.Images.{framed};
ghost use Rattle.plans.specs.Plans.{place_refusal_by, place_answer_by, image_after_by};
ghost use Rattle.by_plan.specs.Judged.{judged};

use crate::head::Plan;
use crate::{judging, moves};
use form::{Reason, Refusal};
use units::Registers;

// Which refusal placing gets: 30, 11, 27, 12 in this order.
fn judge(plan: Plan, hidden: u64, values: &[u8], image: usize) -> Result<(), Refusal>
    ensures { result ≡ judged (place_refusal_by plan.entry.numbers.now hidden values.now image) }
{
    judging::judge(plan, values.len(), image)?;
    if plan.wide_address(hidden) {
        return Err(Refusal::from(Reason::HiddenTooWide));
    }
    if judging::some_broken(plan.lists().bools, values) {
        return Err(Refusal::from(Reason::WrongBool));
    }
    Ok(())
}

// Zeros all: register image and upper image by a loop of known length, which compiled code does without a call.
fn clear_image(image: &mut [u8])
    requires { 304 ≤ length image.old }
    ensures { image.new ≡ cleared image.old }
{
    for k in 0..304 {
        image[k] = 0;
    }
    for k in 304..image.len() {
        image[k] = 0;
    }
}

// Zeros, and the hidden address in rdi where it is used.
fn blank_image(used: bool, address: u64, image: &mut [u8])
    requires { 304 ≤ length image.old }
    ensures { image.new ≡ empty_in (framed used [] (length image.old - 304)) address }
{
    clear_image(image);
    if used {
        images::put_address(image, address);
    }
}

// Places by a plan of any numbers: every byte of the images is written, or none.
pub fn place_by_plan(
    plan: &[u16],
    hidden: u64,
    values: &[u8],
    image: &mut [u8],
) -> Result<Registers, Refusal>
    ensures { (result ≡ place_answer_by plan.now hidden values.now (length image.old))
        × (image.new ≡ image_after_by plan.now hidden values.now image.old) }
{
    let head = Plan::new(plan)?;
    judge(head, hidden, values, image.len())?;
    blank_image(head.uses_address(), hidden, image);
    moves::move_all::<{ moves::PLACING }>(head.lists(), values, image);
    Ok(Registers(head.at(2)))
}
