// The flat records of include/callbridge.h, made of what the library answers: places and registers in plain numbers.
ghost use Rattle.std.specs.Prelude.{◌≡◌, ◌≤◌};
ghost use Rattle.flat.specs.Numbers.{number_in, vector_number};
ghost use Rattle.flat.specs.Records.{classes_of, slot_of, placement_of, pair_of, reached_of, layout_of};

use crate::{Classes, Layout, Pair, Placement, Reached, Slot};
use classes::Class;
use places::{Place, Register, ReturnPlace, Used};
use units::Bytes;

// The numbers of enum cb_class.
impl From<(Class, Class, Class, Class)> for Classes {
    ghost from_gives = { λ four flat. flat ≡ classes_of four };

    fn from((first, second, third, fourth): (Class, Class, Class, Class)) -> Self {
        Classes {
            first: u8::from(first),
            second: u8::from(second),
            third: u8::from(third),
            fourth: u8::from(fourth),
        }
    }
}

// enum cb_register. Numbers and no enum of them: a vector register has a base and a count.
const ST0: u8 = 8;

const ST1: u8 = 9;

const XMM0: u8 = 16;

const XMM0H: u8 = 32;

const XMM0Y: u8 = 48;

const NONE: u8 = 255;

// The general registers of arguments in order, rdi to r9; and those of a returned value, rax and rdx.
const OF_ARGUMENTS: [u8; 6] = [0, 1, 2, 3, 4, 5];

const OF_RETURNED: [u8; 2] = [6, 2];

// xmm0 to xmm7 are 16 to 23, their upper halves 32 to 39, all 32 bytes of each 48 to 55.
fn vector_number(first: u8, n: usize) -> u8
    requires { first ≤ 48 }
    ensures { result ≡ vector_number first n }
{
    if n < 8 { first + n as u8 } else { NONE }
}

// A register's number, where the general registers have these; CB_NONE for a count that no register has.
fn number_in(general: &[u8], register: Register) -> u8
    ensures { result ≡ number_in general.now register }
{
    match register {
        Register::General(n) => general.get(n.0).copied().unwrap_or(NONE),
        Register::Vector(n) => vector_number(XMM0, n.0),
        Register::Upper(n) => vector_number(XMM0H, n.0),
        Register::Wide(n) => vector_number(XMM0Y, n.0),
    }
}

impl From<Place> for Slot {
    ghost from_gives = { λ place slot. slot ≡ slot_of place };

    fn from(place: Place) -> Self {
        match place {
            Place::One(register) => Slot {
                first: number_in(&OF_ARGUMENTS, register),
                second: NONE,
                offset: Bytes(0),
            },
            Place::Two(low, high) => Slot {
                first: number_in(&OF_ARGUMENTS, low),
                second: number_in(&OF_ARGUMENTS, high),
                offset: Bytes(0),
            },
            Place::Stack(offset) => Slot {
                first: NONE,
                second: NONE,
                offset,
            },
        }
    }
}

// The flat record of one argument.
impl From<layout::Placement> for Placement {
    ghost from_gives = { λ argument flat. flat ≡ placement_of argument };

    fn from(argument: layout::Placement) -> Self {
        let slot = Slot::from(argument.place);
        Placement {
            size: argument.size,
            align: argument.align,
            offset: slot.offset,
            value: argument.at,
            ty: argument.ty,
            first: slot.first,
            second: slot.second,
            named: u8::from(argument.named),
            reserved_4: 0,
        }
    }
}

// ---- the return place, and the call as a whole

impl From<ReturnPlace> for Pair {
    ghost from_gives = { λ place pair. pair ≡ pair_of place };

    fn from(place: ReturnPlace) -> Self {
        let (first, second) = match place {
            ReturnPlace::Void | ReturnPlace::Memory => (NONE, NONE),
            ReturnPlace::One(register) => (number_in(&OF_RETURNED, register), NONE),
            ReturnPlace::Two(low, high) => (
                number_in(&OF_RETURNED, low),
                number_in(&OF_RETURNED, high),
            ),
            ReturnPlace::St0 => (ST0, NONE),
            ReturnPlace::St0St1 => (ST0, ST1),
        };
        Pair { first, second }
    }
}

impl From<Used> for Reached {
    ghost from_gives = { λ used reached. reached ≡ reached_of used };

    fn from(used: Used) -> Self {
        Reached {
            general: used.general,
            vector: used.vector,
            stack: used.stack,
        }
    }
}

impl Layout {
    // The flat record of a call with so many arguments.
    pub fn of(whole: layout::Layout, arguments: usize) -> Self
        ensures { result ≡ layout_of whole arguments }
    {
        let pair = Pair::from(whole.returns);
        Layout {
            used: Reached::from(whole.used),
            area: whole.area,
            align: whole.align,
            values: whole.values,
            returned: whole.returned,
            named: Reached::from(whole.named),
            arguments,
            first: pair.first,
            second: pair.second,
            hidden: u8::from(whole.hidden),
            reserved_1: 0,
            reserved_4: 0,
        }
    }
}
