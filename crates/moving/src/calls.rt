// The calls: the bytes of all values, packed, into the three images, and out of them (document 01, "Images and moving bytes"; document 02, request 2026-06).
ghost use Rattle.std.specs.Prelude.{◌≡◌, length};
ghost use Rattle.moving.specs.Images.{amd64};
ghost use Rattle.moving.specs.Answers.{place_answer, registers_after, upper_after, stack_after, gather_answer, values_after};

use crate::{filling, refusals};
use form::{Reason, Refusal};
use layout::Described;
use units::Registers;

// Places packed values: every byte of the three images is written, or none.
pub fn place_values(
    d: &[u8],
    hidden: u64,
    values: &[u8],
    registers: &mut [u8],
    upper: &mut [u8],
    stack: &mut [u8],
) -> Result<Registers, Refusal>
    ensures { (result ≡ place_answer amd64 d.now hidden values.now (length registers.old) (length upper.old)
        (length stack.old))
        × ((registers.new
        ≡ registers_after amd64 d.now hidden values.now registers.old upper.old stack.old)
        × ((upper.new
        ≡ upper_after amd64 d.now hidden values.now registers.old upper.old stack.old)
        × (stack.new
        ≡ stack_after amd64 d.now hidden values.now registers.old upper.old stack.old))) }
{
    let mut table = [0u32; 64];
    let layout = layout::layout_with(d, &mut table)?;
    let described = Described {
        bytes: d,
        table: &table,
    };
    if refusals::wrong_length(
        layout,
        values.len(),
        registers.len(),
        upper.len(),
        stack.len(),
    ) {
        return Err(Refusal::from(Reason::WrongBuffer));
    }
    if refusals::wrong_address(d, layout.hidden, hidden) {
        return Err(Refusal::from(Reason::HiddenTooWide));
    }
    if refusals::wrong_bool(described, values) {
        return Err(Refusal::from(Reason::WrongBool));
    }
    filling::fill_images(
        described,
        layout.hidden,
        hidden,
        values,
        registers,
        upper,
        stack,
    );
    Ok(layout.used.vector)
}

// Gathers the values again, packed, and answers the hidden address.
pub fn gather_values(
    d: &[u8],
    registers: &[u8],
    upper: &[u8],
    stack: &[u8],
    values: &mut [u8],
) -> Result<u64, Refusal>
    ensures { (result ≡ gather_answer amd64 d.now registers.now upper.now stack.now (length values.old))
        × (values.new
        ≡ values_after amd64 d.now registers.now upper.now stack.now values.old) }
{
    let mut table = [0u32; 64];
    let layout = layout::layout_with(d, &mut table)?;
    let described = Described {
        bytes: d,
        table: &table,
    };
    if refusals::wrong_length(
        layout,
        values.len(),
        registers.len(),
        upper.len(),
        stack.len(),
    ) {
        return Err(Refusal::from(Reason::WrongBuffer));
    }
    filling::gather_all(described, layout.hidden, registers, upper, stack, values);
    Ok(if layout.hidden {
        images::address_in(registers)
    } else {
        0
    })
}
