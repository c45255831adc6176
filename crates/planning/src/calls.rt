// The call: any bytes judged, 1 to 10 and 11, and the plan of those that get none.
ghost use Rattle.std.specs.Prelude.{◌≡◌, cond, ◌≤◌, length};
ghost use Rattle.description.specs.Description.{model_in};
ghost use Rattle.layout.specs.Layout.{layout_of};
ghost use Rattle.layout.specs.Verdict.{verdict};
ghost use Rattle.plans.specs.Cuts.{address_kind, head_of, plan_of};
ghost use Rattle.planning.specs.Planning.{overwritten, call_numbers, return_numbers, plan_answer, plan_after};

use crate::lists::Kind;
use crate::{joining, lists, numbers};
use description::Model;
use form::{Reason, Refusal};
use layout::{Described, Layout};
use returning::Parts;

// ---- what stands before the lists

// What a plan says of the hidden address: 0 none, 2 one that has to have 32 bits, 1 any other. A number, since it is one of the plan's (plans/specs/Plans.antt).
fn address_kind(d: &[u8], used: bool) -> usize
    requires { 11 ≤ length d.now }
    ensures { result ≡ cond used (address_kind (model_in d.now)) 0 }
{
    if !used {
        return 0;
    }
    match description::model_of(d) {
        Model::Lp64 => 1,
        Model::Ilp32 => 2,
    }
}

// 1 where a _Bool is returned, else 0.
// A number, since it is one of the plan's (plans/specs/Plans.antt).
fn returned_bool(d: &[u8]) -> usize
    requires { verdict d.now ≡ 0 }
    ensures { result ≡ (head_of d.now).bool }
{
    let k = description::byte_at(d, 9);
    if k == 255 {
        return 0;
    }
    if moving::is_bool(d, k) { 1 } else { 0 }
}

// Numbers 0 to 3: of the call as a whole.
fn write_call(d: &[u8], layout: Layout, plan: &mut [u16])
    requires { (verdict d.now ≡ 0) × (layout ≡ layout_of d.now) × (16 ≤ length plan.old) }
    ensures { plan.new ≡ overwritten plan.old 0 (call_numbers (head_of d.now)) }
{
    numbers::put_two(plan, 0, layout.values.0, layout.area.0);
    numbers::put_two(
        plan,
        2,
        layout.used.vector.0,
        address_kind(d, layout.hidden),
    );
}

// Numbers 8 to 15: of the returned value.
fn write_returned(d: &[u8], layout: Layout, plan: &mut [u16])
    requires { (verdict d.now ≡ 0) × (layout ≡ layout_of d.now) × (16 ≤ length plan.old) }
    ensures { plan.new ≡ overwritten plan.old 8 (return_numbers (head_of d.now)) }
{
    let place = layout.returns;
    let bytes = returning::length_for(place, layout.returned);
    let Parts { low, high } = returning::parts_of(place, bytes);
    numbers::put_two(plan, 8, bytes.0, returned_bool(d));
    numbers::put_three(plan, 10, low.from.0, low.to.0, low.count.0);
    numbers::put_three(plan, 13, high.from.0, high.to.0, high.count.0);
}

// ---- all

// The lists, and then what stands before them; answers where the plan ends.
fn write_plan(described: Described, layout: Layout, plan: &mut [u16]) -> usize
    requires { (verdict described.bytes.now ≡ 0) × (layout ≡ layout_of described.bytes.now) × (392 ≤ length plan.old) }
    ensures { (plan.new ≡ overwritten plan.old 0 (plan_of described.entry.bytes.now)) × (result ≡ length (plan_of described.entry.bytes.now)) }
{
    let mut moves = [0u16; 384];
    let count = joining::join_all(described, layout.hidden, &mut moves);
    let fours = lists::write_kind(&moves, count, Kind::Eights, plan, 16);
    let parts = lists::write_kind(&moves, count, Kind::Fours, plan, fours);
    let bools = lists::write_kind(&moves, count, Kind::Parts, plan, parts);
    let end = lists::write_bools(described, plan, bools);
    write_call(described.bytes, layout, plan);
    numbers::put_two(plan, 4, (fours - 16) / 2, (parts - fours) / 2);
    numbers::put_two(plan, 6, (bools - parts) / 3, end - bools);
    write_returned(described.bytes, layout, plan);
    end
}

// The plan of any bytes, or which of 1 to 10 refuses them; 11 for a list of fewer than 392 numbers.
pub fn plan_of(d: &[u8], plan: &mut [u16]) -> Result<usize, Refusal>
    ensures { (result ≡ plan_answer d.now (length plan.old)) × (plan.new ≡ plan_after d.now plan.old) }
{
    let mut table = [0u32; 64];
    let layout = layout::layout_with(d, &mut table)?;
    let described = Described {
        bytes: d,
        table: &table,
    };
    if plan.len() < 392 {
        return Err(Refusal::from(Reason::WrongBuffer));
    }
    Ok(write_plan(described, layout, plan))
}
