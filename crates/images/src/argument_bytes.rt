// One argument's bytes into the three images and out again (document 01, "Images and moving bytes"; document 02, request 2026-06), and where a register
// lies in its image. The upper image holds bytes 16 to 31 of xmm0 to xmm7, 16 each, as the register image holds bytes 0 to 15 from its byte 48 on.
ghost use Rattle.std.specs.Prelude.{◌≡◌, ◌+◌, ◌-◌, ◌≤◌, length, ◌++◌};
ghost use Rattle.addresses.specs.Copy.{copied};
ghost use Rattle.places.specs.Images.{stack_at, address_of, slots_of, spread, bytes_of};
ghost use Rattle.images.specs.Asks.{Known, AskAlone, AskMove};
ghost use Rattle.addresses.specs.Addresses.{run, gather, scatter};
ghost use Rattle.places.specs.Recorded.{place_of};

use places::{Place, Register};
use units::Bytes;

// Where a register's first eightbyte begins in the register image.
pub fn address_of(register: Register) -> Bytes
    requires { Known register }
    ensures { result.0 ≡ address_of register }
{
    match register {
        Register::General(n) => n.general_bytes(),
        Register::Vector(n) => Bytes(48) + n.vector_bytes(),
        Register::Upper(n) => Bytes(56) + n.vector_bytes(),
        Register::Wide(n) => Bytes(48) + n.vector_bytes(),
    }
}

// Where the upper image holds bytes 16 to 31 of the vector register that begins here in the register image.
fn upper_address(begin: Bytes) -> Bytes
    requires { 48 ≤ begin.0 }
    ensures { result.0 ≡ begin.0 - 48 }
{
    begin - Bytes(48)
}

// Copies N bytes by way of a word that lies apart from both: so compiled code loads once and stores once.
pub fn copy_word<const N: usize>(dst: &mut [u8], to: usize, src: &[u8], from: usize)
    requires { (to + N ≤ length dst.old) × (from + N ≤ length src.now) }
    ensures { dst.new ≡ copied dst.old to src.now from N }
{
    let mut word = [0u8; N];
    addresses::copy(&mut word, 0, src, from, N);
    addresses::copy(dst, to, &word, 0, N);
}

// Copies count bytes: here offsets become indices. Most arguments have eight.
fn copy_bytes(dst: &mut [u8], to: Bytes, src: &[u8], from: Bytes, count: Bytes)
    requires { (to.0 + count.0 ≤ length dst.old) × (from.0 + count.0 ≤ length src.now) }
    ensures { dst.new ≡ copied dst.old to.0 src.now from.0 count.0 }
{
    if count == Bytes(8) {
        copy_word::<8>(dst, to.0, src, from.0);
    } else {
        addresses::copy(dst, to.0, src, from.0, count.0);
    }
}

// ---- one register

// Places an argument that one register holds. "Bytes 16 to 31 stand in a second lent image of 128 bytes, xmm0 first": one of over 8 bytes is wide.
fn place_alone(
    registers: &mut [u8],
    upper: &mut [u8],
    register: Register,
    size: Bytes,
    values: &[u8],
    at: Bytes,
)
    requires { AskAlone register size.0 at.0 (length registers.old) (length upper.old) (length values.now) }
    ensures { registers.new ++ upper.new
        ≡ scatter (registers.old ++ upper.old) (spread (slots_of register) size.0) (gather values.now (run at.0 size.0)) }
{
    let begin = address_of(register);
    if size <= Bytes(8) {
        copy_bytes(registers, begin, values, at, size);
        return;
    }
    copy_bytes(registers, begin, values, at, Bytes(16));
    copy_bytes(
        upper,
        upper_address(begin),
        values,
        at + Bytes(16),
        size - Bytes(16),
    );
}

// Gathers an argument that one register holds.
fn gather_alone(
    registers: &[u8],
    upper: &[u8],
    register: Register,
    size: Bytes,
    values: &mut [u8],
    at: Bytes,
)
    requires { AskAlone register size.0 at.0 (length registers.now) (length upper.now) (length values.old) }
    ensures { values.new
        ≡ scatter values.old (run at.0 size.0) (gather (registers.now ++ upper.now) (spread (slots_of register) size.0)) }
{
    let begin = address_of(register);
    if size <= Bytes(8) {
        copy_bytes(values, at, registers, begin, size);
        return;
    }
    copy_bytes(values, at, registers, begin, Bytes(16));
    copy_bytes(
        values,
        at + Bytes(16),
        upper,
        upper_address(begin),
        size - Bytes(16),
    );
}

// ---- one argument

// Places one argument: size bytes of the values, from `at` on.
pub fn place_one(
    registers: &mut [u8],
    upper: &mut [u8],
    stack: &mut [u8],
    place: Place,
    size: Bytes,
    values: &[u8],
    at: Bytes,
)
    requires { AskMove place size.0 at.0 (length registers.old) (length upper.old) (length stack.old) (length values.now) }
    ensures { registers.new ++ (upper.new ++ stack.new)
        ≡ scatter (registers.old ++ (upper.old ++ stack.old)) (bytes_of stack_at (place_of place) size.0) (gather values.now (run at.0 size.0)) }
{
    match place {
        Place::One(only) => place_alone(registers, upper, only, size, values, at),
        Place::Two(low, high) => {
            copy_bytes(registers, address_of(low), values, at, Bytes(8));
            copy_bytes(
                registers,
                address_of(high),
                values,
                at + Bytes(8),
                size - Bytes(8),
            );
        }
        Place::Stack(offset) => copy_bytes(stack, offset, values, at, size),
    }
}

// Gathers one argument: its size bytes into the values, from `at` on.
pub fn gather_one(
    registers: &[u8],
    upper: &[u8],
    stack: &[u8],
    place: Place,
    size: Bytes,
    values: &mut [u8],
    at: Bytes,
)
    requires { AskMove place size.0 at.0 (length registers.now) (length upper.now) (length stack.now) (length values.old) }
    ensures { values.new
        ≡ scatter values.old (run at.0 size.0) (gather (registers.now ++ (upper.now ++ stack.now)) (bytes_of stack_at (place_of place) size.0)) }
{
    match place {
        Place::One(only) => gather_alone(registers, upper, only, size, values, at),
        Place::Two(low, high) => {
            copy_bytes(values, at, registers, address_of(low), Bytes(8));
            copy_bytes(
                values,
                at + Bytes(8),
                registers,
                address_of(high),
                size - Bytes(8),
            );
        }
        Place::Stack(offset) => copy_bytes(values, at, stack, offset, size),
    }
}
