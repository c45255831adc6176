// The return image (document 02, request 2026-02): rax, rdx at 0 and 8, then xmm0, xmm1, st0, st1 of 16 bytes each; and the upper return image (request
// 2026-06): bytes 16 to 31 of xmm0. `parts_of` says which bytes of a value stand where, counted through both, and nothing else does.
ghost use Rattle.std.specs.Prelude.{◌≡◌, ◌++◌, length};
ghost use Rattle.returning.specs.Moved.{return_address, moved, ten, no_part, one_part, parts_in, parts_of};
ghost use Rattle.returning.specs.ImageAsks.{Returning, Alone, Returnable, AskPart};
ghost use Rattle.returning.specs.Image.{length_for, in_memory, blank_return, return_image, return_value, returned_address};
ghost use Rattle.addresses.specs.Copy.{copied};

use places::{Register, ReturnPlace};
use units::Bytes;

// So many bytes of a value, from its byte `from` on, that stand in the image from its byte `to` on, or from 80 on in the upper image.
#[derive(Clone, Copy)]
pub struct Part {
    pub from: Bytes,
    pub to: Bytes,
    pub count: Bytes,
}

// All bytes of a value that are moved.
#[derive(Clone, Copy)]
pub struct Parts {
    pub low: Part,
    pub high: Part,
}

// Where a register's first eightbyte begins in the return image.
fn return_address(register: Register) -> Bytes
    requires { Returning register }
    ensures { result.0 ≡ return_address register }
{
    match register {
        Register::General(n) => n.general_bytes(),
        Register::Vector(n) => Bytes(16) + n.vector_bytes(),
        Register::Upper(n) => Bytes(24) + n.vector_bytes(),
        Register::Wide(n) => Bytes(16) + n.vector_bytes(),
    }
}

fn moved(from: Bytes, to: Bytes, count: Bytes) -> Part
    ensures { result ≡ moved from.0 to.0 count.0 }
{
    Part { from, to, count }
}

// A part of no bytes, and no Option: the numbers of a plan say it so (plans/specs/Returned.antt).
fn no_part() -> Part
    ensures { result ≡ no_part }
{
    moved(Bytes(0), Bytes(0), Bytes(0))
}

// The ten significant bytes of a long double.
fn ten(from: Bytes, to: Bytes) -> Part
    ensures { result ≡ ten from.0 to.0 }
{
    moved(from, to, Bytes(10))
}

// ---- what is moved

// The length of a value of a type of `size` bytes: none of it is moved where it is in memory.
pub fn length_for(place: ReturnPlace, size: Bytes) -> Bytes
    ensures { result.0 ≡ length_for place size.0 }
{
    match place {
        ReturnPlace::Void | ReturnPlace::Memory => Bytes(0),
        _ => size,
    }
}

// Whether the value is in memory: the image then carries its address.
fn in_memory(place: ReturnPlace) -> bool
    ensures { result ≡ in_memory place }
{
    matches!(place, ReturnPlace::Memory)
}

// A value of `size` bytes in one register, in a row.
fn one_part(register: Register, size: Bytes) -> Parts
    requires { Returning register }
    ensures { result ≡ one_part register size.0 }
{
    Parts {
        low: moved(Bytes(0), return_address(register), size),
        high: no_part(),
    }
}

// A value of `size` bytes in one register: bytes 16 to 31 of a wide one stand in the upper image.
fn parts_in(register: Register, size: Bytes) -> Parts
    requires { Alone register size.0 }
    ensures { result ≡ parts_in register size.0 }
{
    match register {
        Register::General(_) | Register::Vector(_) | Register::Upper(_) => one_part(register, size),
        Register::Wide(n) => Parts {
            low: moved(Bytes(0), return_address(register), Bytes(16)),
            high: moved(Bytes(16), Bytes(80) + n.vector_bytes(), size - Bytes(16)),
        },
    }
}

// ---- putting and taking

// Which bytes of a value of `size` bytes are moved.
pub fn parts_of(place: ReturnPlace, size: Bytes) -> Parts
    requires { Returnable place size.0 }
    ensures { result ≡ parts_of place size.0 }
{
    match place {
        ReturnPlace::Void | ReturnPlace::Memory => Parts {
            low: no_part(),
            high: no_part(),
        },
        ReturnPlace::One(only) => parts_in(only, size),
        ReturnPlace::Two(first, second) => Parts {
            low: moved(Bytes(0), return_address(first), Bytes(8)),
            high: moved(Bytes(8), return_address(second), size - Bytes(8)),
        },
        ReturnPlace::St0 => Parts {
            low: ten(Bytes(0), Bytes(48)),
            high: no_part(),
        },
        ReturnPlace::St0St1 => Parts {
            low: ten(Bytes(0), Bytes(48)),
            high: ten(Bytes(16), Bytes(64)),
        },
    }
}

// Zeros, and the hidden address in rax where the value is in memory.
fn blank_images(memory: bool, hidden: u64, image: &mut [u8], upper: &mut [u8])
    requires { (length image.old ≡ 80) × (length upper.old ≡ 16) }
    ensures { image.new ++ upper.new ≡ blank_return memory hidden }
{
    addresses::clear(image);
    addresses::clear(upper);
    if memory {
        images::put_address(image, hidden);
    }
}

impl Part {
    // Puts a part into the image that it stands in.
    fn put(self, value: &[u8], image: &mut [u8], upper: &mut [u8])
        requires { AskPart self (length value.now) (length image.old) (length upper.old) }
        ensures { image.new ++ upper.new
            ≡ copied (image.old ++ upper.old) self.to.0 value.now self.from.0 self.count.0 }
    {
        let Part { from, to, count } = self;
        if to < Bytes(80) {
            addresses::copy(image, to.0, value, from.0, count.0);
        } else {
            let above = to - Bytes(80);
            addresses::copy(upper, above.0, value, from.0, count.0);
        }
    }

    // Takes a part out of the image that it stands in.
    fn take(self, image: &[u8], upper: &[u8], value: &mut [u8])
        requires { AskPart self (length value.old) (length image.now) (length upper.now) }
        ensures { value.new
            ≡ copied value.old self.from.0 (image.now ++ upper.now) self.to.0 self.count.0 }
    {
        let Part { from, to, count } = self;
        if to < Bytes(80) {
            addresses::copy(value, from.0, image, to.0, count.0);
        } else {
            let above = to - Bytes(80);
            addresses::copy(value, from.0, upper, above.0, count.0);
        }
    }
}

// Puts a value into the images, every byte of which is written.
pub fn put_value(place: ReturnPlace, hidden: u64, value: &[u8], image: &mut [u8], upper: &mut [u8])
    requires { Returnable place (length value.now) × (length image.old ≡ 80) × (length upper.old ≡ 16) }
    ensures { image.new ++ upper.new ≡ return_image place hidden value.now }
{
    let Parts { low, high } = parts_of(place, Bytes(value.len()));
    blank_images(in_memory(place), hidden, image, upper);
    low.put(value, image, upper);
    high.put(value, image, upper);
}

// Takes a value out of the images: every byte of the value is written.
pub fn take_value(place: ReturnPlace, image: &[u8], upper: &[u8], value: &mut [u8])
    requires { Returnable place (length value.old) × (length image.now ≡ 80) × (length upper.now ≡ 16) }
    ensures { value.new ≡ return_value place (length value.old) (image.now ++ upper.now) }
{
    let Parts { low, high } = parts_of(place, Bytes(value.len()));
    addresses::clear(value);
    low.take(image, upper, value);
    high.take(image, upper, value);
}

// The hidden address in rax; 0 where the value is not in memory.
pub fn returned_address(place: ReturnPlace, image: &[u8]) -> u64
    requires { length image.now ≡ 80 }
    ensures { result ≡ returned_address place image.now }
{
    if in_memory(place) {
        images::address_in(image)
    } else {
        0
    }
}
