// What a call may use of a description's types (document 01, "Refusal numbers", 8 and 9), and which of 1 to 9 refuses any bytes.
#![tactic(auto)]

ghost use Rattle.std.specs.Prelude.{◌≡◌, ◌≤◌, ◌<◌, ltb};
ghost use Rattle.description.specs.Description.{Whole, types_in, named_in, arguments_in, model_in};
ghost use Rattle.form.specs.Order.{first};
ghost use Rattle.form.specs.Reading.{judgment, refusal_of};
ghost use Rattle.uses.specs.Uses.{wrong_number, wrong_return, first_wrong, wrong_use, narrow, narrow_unnamed, Typed, passing_order, uses_refusal};
ghost use Rattle.types.specs.Table.{sizes_after, Sizes};
ghost use Rattle.types.specs.Wrong.{refusal_for};

use description::TypeRecord;
use form::{Reason, Refusal};

// ---- 8: the return type and each argument

// Whether number t is no type to pass or return by itself: not below T, or an array.
#[tactic(auto, unfolding(crate::specs::Uses::wrong_number))]
fn wrong_number(d: &[u8], t: usize) -> bool
    requires { Whole d.now }
    ensures { result ≡ wrong_number d.now t }
{
    description::byte_at(d, 5) <= t
        || matches!(description::record_at(d, t), TypeRecord::Array { .. })
}

// Whether the number of the returned type is wrong; that of void is not.
#[tactic(auto, unfolding(crate::specs::Uses::wrong_return))]
fn wrong_return(d: &[u8]) -> bool
    requires { Whole d.now }
    ensures { result ≡ wrong_return d.now }
{
    let returns = description::byte_at(d, 9);
    returns != 255 && wrong_number(d, returns)
}

// Whether an argument has such a number. A loop and no `any`, here and for 9: the header is then read before it, and not at each turn.
fn some_wrong(d: &[u8]) -> bool
    requires { Whole d.now }
    ensures { result ≡ ltb (first_wrong d.now) (arguments_in d.now) }
{
    for i in 0..description::byte_at(d, 8) {
        if wrong_number(d, description::argument_at(d, i)) {
            return true;
        }
    }
    false
}

// Whether the return type or an argument has such a number.
#[tactic(auto, unfolding(crate::specs::Uses::wrong_use))]
fn wrong_use(d: &[u8]) -> bool
    requires { Whole d.now }
    ensures { result ≡ wrong_use d.now }
{
    wrong_return(d) || some_wrong(d)
}

// ---- 9: unnamed arguments

// Whether type k is one that C widens where it is passed unnamed: _Bool, char, short or float.
#[tactic(auto, unfolding(crate::specs::Uses::narrow))]
fn is_narrow(d: &[u8], k: usize) -> bool
    requires { Whole d.now × (k < types_in d.now) }
    ensures { result ≡ narrow d.now k }
{
    match description::record_at(d, k) {
        TypeRecord::Basic { code, .. } => code <= 2 || code == 6,
        _ => false,
    }
}

// Whether an unnamed argument is of such a type.
fn narrow_unnamed(d: &[u8]) -> bool
    requires { Typed d.now }
    ensures { result ≡ narrow_unnamed d.now }
{
    let named = description::byte_at(d, 7);
    for i in named..description::byte_at(d, 8) {
        if is_narrow(d, description::argument_at(d, i)) {
            return true;
        }
    }
    false
}

// ---- 8 and 9

// Which of the refusals 8 and 9 a description gets that none of those before them refuses.
pub fn judge_passing(d: &[u8]) -> Result<(), Refusal>
    requires { Whole d.now × (named_in d.now ≤ arguments_in d.now) }
    ensures { result ≡ judgment (first (passing_order d.now)) (refusal_of (first (passing_order d.now))) }
{
    if wrong_use(d) {
        return Err(Refusal::from(Reason::WrongNumber));
    }
    if narrow_unnamed(d) {
        return Err(Refusal::from(Reason::Unpromoted));
    }
    Ok(())
}

// ---- 1 to 9

// Which of the refusals 1 to 9 the description gets, and of 6 and 7 the lowest type that breaks the rule; nothing where it gets
// none: then the table has an entry for each type.
pub fn judge(d: &[u8], table: &mut [u32; 64]) -> Result<(), Refusal>
    ensures { (result ≡ judgment (uses_refusal d.now) (refusal_for d.now (uses_refusal d.now)))
        × (table.new ≡ sizes_after d.now table.old)
        × (uses_refusal d.now ≡ 0 → Sizes (model_in d.now) d.now (types_in d.now) table.new) }
{
    types::judge(d, table)?;
    judge_passing(d)
}
