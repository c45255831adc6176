// Opening a walk over unnamed arguments (document 01, "Station and walk"): refused, or the walk before the first of them.
ghost use Rattle.std.specs.Prelude.{◌≡◌};
ghost use Rattle.form.specs.Order.{first};
ghost use Rattle.station.specs.Paper.{kcb};
ghost use Rattle.walk.specs.Orders.{standing, variadic_order};
ghost use Rattle.walk.specs.Steps.{opened_if, open_answer};

use crate::Walk;
use form::{Reason, Refusal};
use station::Station;

// 1..10, 16, and the walk before the first unnamed argument.
fn open_on(number: u32, d: &[u8]) -> Result<Walk, Refusal>
    ensures { result ≡ opened_if kcb d.now (first (variadic_order kcb d.now)) (standing kcb d.now number (kcb.named d.now)) }
{
    let layout = layout::layout_of(d)?;
    if description::variadic_in(d) != 1 {
        return Err(Refusal::from(Reason::NotVariadic));
    }
    let named = description::byte_at(d, 7);
    Ok(Walk::standing(number, named, layout.named))
}

// Opens a walk over the unnamed arguments of the description in the seat.
pub fn open_walk(station: Station, seat: &[u8]) -> Result<Walk, Refusal>
    ensures { result ≡ open_answer kcb station seat.now }
{
    if station::wrong_seat(station, seat) {
        return Err(Refusal::from(Reason::WrongBuffer));
    }
    if !station.attached {
        return Err(Refusal::from(Reason::NotAttached));
    }
    open_on(station.number, &seat[..station.length.0])
}
