// Gathering by a plan: 30 and 11, then each move turned.
ghost use Rattle.std.specs.Prelude.{◌≡◌, length};
ghost use Rattle.plans.specs.Plans.{gather_answer_by, values_after_by};

use crate::head::Plan;
use crate::{judging, moves};
use form::Refusal;

// Gathers by a plan of any numbers, and answers the hidden address.
pub fn gather_by_plan(plan: &[u16], image: &[u8], values: &mut [u8]) -> Result<u64, Refusal>
    ensures { (result ≡ gather_answer_by plan.now image.now (length values.old))
        × (values.new ≡ values_after_by plan.now image.now values.old) }
{
    let head = Plan::new(plan)?;
    judging::judge(head, values.len(), image.len())?;
    moves::move_all::<{ moves::GATHERING }>(head.lists(), image, values);
    Ok(head.address_in(image))
}
