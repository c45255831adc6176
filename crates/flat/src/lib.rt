// The records of the C interface (include/callbridge.h): plain numbers for what the library answers by enums, and what each number means
// (specs/Numbers, specs/Meanings). No record has a byte that is no field: the reserved ones are written as zero and never looked at.
#![tactic(auto)]

mod records; // the flat record of one argument, and of a call as a whole
mod stack_needs; // whether a call needs the stack
mod stations; // the station and the walk as flat records, and back

ghost use Rattle.std.specs.Prelude.{◌≡◌};
ghost use Rattle.flat.specs.Parts.{part_of, nowhere};

use units::{Bytes, Registers};

// cb_classes: a number of enum cb_class for each of up to four eightbytes.
#[repr(C)]
#[derive(Clone, Copy)]
pub struct Classes {
    pub first: u8,
    pub second: u8,
    pub third: u8,
    pub fourth: u8,
}

// enum cb_image: what a part is a part of.
#[derive(Clone, Copy, Debug, PartialEq, Eq)]
pub enum Image {
    Nowhere = 0,
    Description = 1,
    Registers = 2,
    Stack = 3,
}

// cb_part: so many bytes of the description or of an image, by enum cb_image.
#[repr(C)]
#[derive(Clone, Copy)]
pub struct Part {
    pub offset: Bytes,
    pub length: Bytes,
    pub image: u8,
    pub reserved_1: u8,
    pub reserved_2: u16,
    pub reserved_4: u32,
}

// cb_placement: one argument; its registers by enum cb_register, or its stack offset; where its value begins, and 1 where it is named.
#[repr(C)]
#[derive(Clone, Copy)]
pub struct Placement {
    pub size: Bytes,
    pub align: Bytes,
    pub offset: Bytes,
    pub value: Bytes,
    pub ty: u8,
    pub first: u8,
    pub second: u8,
    pub named: u8,
    pub reserved_4: u32,
}

// Registers used, and where the stack arguments end.
#[repr(C)]
#[derive(Clone, Copy)]
pub struct Reached {
    pub general: Registers,
    pub vector: Registers,
    pub stack: Bytes,
}

// cb_layout: a call as a whole; `align` is the area's alignment.
#[repr(C)]
#[derive(Clone, Copy)]
pub struct Layout {
    pub used: Reached,
    pub area: Bytes,
    pub align: Bytes,
    pub values: Bytes,
    pub returned: Bytes,
    pub named: Reached,
    pub arguments: usize,
    pub first: u8,
    pub second: u8,
    pub hidden: u8,
    pub reserved_1: u8,
    pub reserved_4: u32,
}

// cb_placed: the vector count, for al.
#[repr(C)]
#[derive(Clone, Copy)]
pub struct Placed {
    pub vector: Registers,
}

// cb_gathered: the hidden address, of the arguments or of a returned value, 0 where none is used.
#[repr(C)]
#[derive(Clone, Copy)]
pub struct Gathered {
    pub hidden: u64,
}

// cb_stack_need: how many arguments were looked at, and 1 where one goes to the stack.
#[repr(C)]
#[derive(Clone, Copy)]
pub struct StackNeed {
    pub looked: usize,
    pub needed: u8,
    pub reserved_1: u8,
    pub reserved_2: u16,
    pub reserved_4: u32,
}

// cb_tidied: how many bytes the tidy form has.
#[repr(C)]
#[derive(Clone, Copy)]
pub struct Tidied {
    pub length: Bytes,
}

// cb_station: 0 in `attached` is not attached, any other number is attached.
#[repr(C)]
#[derive(Clone, Copy)]
pub struct Station {
    pub length: Bytes,
    pub number: u32,
    pub attached: u8,
    pub reserved_1: u8,
    pub reserved_2: u16,
}

// cb_walk: where a walk stands.
#[repr(C)]
#[derive(Clone, Copy)]
pub struct Walk {
    pub position: usize,
    pub general: Bytes,
    pub vector: Bytes,
    pub overflow: Bytes,
    pub number: u32,
    pub reserved_4: u32,
}

// A place in numbers.
#[derive(Clone, Copy)]
pub struct Slot {
    pub first: u8,
    pub second: u8,
    pub offset: Bytes,
}

// A return place in numbers.
#[derive(Clone, Copy)]
pub struct Pair {
    pub first: u8,
    pub second: u8,
}

// So many bytes from an offset on, of the description or of the image with this number: any number that a cb_part can hold, also one that is
// none of enum cb_image.
pub fn part_of(image: u8, offset: Bytes, length: Bytes) -> Part
    ensures { result ≡ part_of image offset length }
{
    Part {
        offset,
        length,
        image,
        reserved_1: 0,
        reserved_2: 0,
        reserved_4: 0,
    }
}

// CB_NOWHERE: no part.
pub fn nowhere() -> Part
    ensures { result ≡ nowhere }
{
    part_of(Image::Nowhere as u8, Bytes(0), Bytes(0))
}

// CB_VERSION: the version of the header that has these records.
pub fn version() -> u32
    ensures { result ≡ 5 }
{
    5
}
