// Whether numbers are a plan: all lists are there, and every move and every _Bool byte lies within the values and the images. Nothing is moved before.
ghost use Rattle.std.specs.Prelude.{◌≡◌, true, length};
ghost use Rattle.plans.specs.Plans.{all_below, some_broken, well_formed, gather_refusal_by};
ghost use Rattle.by_plan.specs.Judged.{judged};

use crate::head::Plan;
use crate::moves;
use form::{Reason, Refusal};

fn bools_below(bools: &[u16], values: usize) -> bool
    ensures { result ≡ all_below values bools.now }
{
    for at in bools {
        if values <= usize::from(*at) {
            return false;
        }
    }
    true
}

pub fn some_broken(bools: &[u16], values: &[u8]) -> bool
    requires { all_below (length values.now) bools.now ≡ true }
    ensures { result ≡ some_broken values.now bools.now }
{
    for at in bools {
        if 1 < values[usize::from(*at)] {
            return true;
        }
    }
    false
}

fn well_formed(plan: Plan) -> bool
    ensures { result ≡ well_formed plan.entry.numbers.now }
{
    if plan.numbers.len() < plan.end() {
        return false;
    }
    let lists = plan.lists();
    moves::all_fit(lists, plan.at(0), plan.image()) && bools_below(lists.bools, plan.at(0))
}

// 30 and 11, in this order.
pub fn judge(plan: Plan, values: usize, image: usize) -> Result<(), Refusal>
    ensures { result ≡ judged (gather_refusal_by plan.entry.numbers.now values image) }
{
    if !well_formed(plan) {
        return Err(Refusal::from(Reason::NoPlan));
    }
    if values != plan.at(0) || image != plan.image() {
        return Err(Refusal::from(Reason::WrongBuffer));
    }
    Ok(())
}
