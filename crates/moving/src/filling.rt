// All arguments' bytes into the three images, every byte of which is written, and out of them again (document 01, "Images and moving bytes").
ghost use Rattle.std.specs.Prelude.{◌≡◌, [], ◌++◌, length};
ghost use Rattle.moving.specs.Images.{addresses_of, framed, frame_of};
ghost use Rattle.moving.specs.Frames.{empty_in, placed_in, gathered_in};
ghost use Rattle.addresses.specs.Addresses.{scatter};
ghost use Rattle.layout.specs.Arguments.{hidden};
ghost use Rattle.moving.specs.Asks.{Lent};

use layout::{Described, Laying, Placement};

// ---- before the first argument

// Zeros, and the hidden address in rdi where it is used.
fn blank_images(used: bool, address: u64, registers: &mut [u8], upper: &mut [u8], stack: &mut [u8])
    requires { (length registers.old ≡ 176) × (length upper.old ≡ 128) }
    ensures { registers.new ++ (upper.new ++ stack.new) ≡ empty_in (framed used [] (length stack.old)) address }
{
    addresses::clear(registers);
    addresses::clear(upper);
    addresses::clear(stack);
    if used {
        images::put_address(registers, address);
    }
}

// ---- all arguments
// The loop stands twice, in place_all and in gather_all: one reads the images, and the other writes them. They are three parameters, as `images` has them.

// Places every argument into the images, over what stands there. Each record is worked out here, and says where the value begins (request 2026-07).
fn place_all(
    described: Described,
    used: bool,
    values: &[u8],
    registers: &mut [u8],
    upper: &mut [u8],
    stack: &mut [u8],
)
    requires { Lent described.bytes.now (length values.now) (length registers.old) (length upper.old) (length stack.old) × (used ≡ hidden described.bytes.now) }
    ensures { registers.new ++ (upper.new ++ stack.new)
        ≡ scatter (registers.old ++ (upper.old ++ stack.old)) (addresses_of described.entry.bytes.now) values.now }
{
    let mut laying = Laying::fresh(used);
    for i in 0..described.arguments() {
        let placement = described.place_argument(i, &mut laying);
        let Placement {
            place,
            size,
            at,
            ..
        } = placement;
        images::place_one(registers, upper, stack, place, size, values, at);
    }
}

// Every byte of the three images: blank, and over that the values.
pub fn fill_images(
    described: Described,
    used: bool,
    address: u64,
    values: &[u8],
    registers: &mut [u8],
    upper: &mut [u8],
    stack: &mut [u8],
)
    requires { Lent described.bytes.now (length values.now) (length registers.old) (length upper.old) (length stack.old) × (used ≡ hidden described.bytes.now) }
    ensures { registers.new ++ (upper.new ++ stack.new) ≡ placed_in (frame_of described.entry.bytes.now) address values.now }
{
    blank_images(used, address, registers, upper, stack);
    place_all(described, used, values, registers, upper, stack);
}

// Gathers every argument out of the images, by the same records.
pub fn gather_all(
    described: Described,
    used: bool,
    registers: &[u8],
    upper: &[u8],
    stack: &[u8],
    values: &mut [u8],
)
    requires { Lent described.bytes.now (length values.old) (length registers.now) (length upper.now) (length stack.now) × (used ≡ hidden described.bytes.now) }
    ensures { values.new ≡ gathered_in (frame_of described.entry.bytes.now) (registers.now ++ (upper.now ++ stack.now)) }
{
    let mut laying = Laying::fresh(used);
    for i in 0..described.arguments() {
        let placement = described.place_argument(i, &mut laying);
        let Placement {
            place,
            size,
            at,
            ..
        } = placement;
        images::gather_one(registers, upper, stack, place, size, values, at);
    }
}
