// Where a value is returned (document 01, "Places"): in registers, in memory behind a hidden address, or in st0 and st1; and what is used before the first
// argument: nothing, or rdi by the hidden address.
ghost use Rattle.std.specs.Prelude.{◌≡◌, [], ◌∷◌};
ghost use Rattle.places.specs.Places.{fresh};
ghost use Rattle.places.specs.Returns.{outside, return_of, classes_by, hidden_by};

use crate::{Place, Register, ReturnPlace, Used, shapes};
use classes::Class;
use units::{Bytes, Registers};

impl Used {
    // Nothing is used, or rdi by the hidden address.
    pub fn fresh(hidden: bool) -> Self
        ensures { result ≡ fresh hidden }
    {
        Self {
            general: Registers(if hidden { 1 } else { 0 }),
            vector: Registers(0),
            stack: Bytes(0),
            strict: false,
        }
    }
}

// ---- the return place

// Where a value without registers is returned.
fn outside_registers(class: Class) -> ReturnPlace
    ensures { result ≡ outside class }
{
    match class {
        Class::X87 => ReturnPlace::St0,
        Class::ComplexX87 => ReturnPlace::St0St1,
        Class::Memory => ReturnPlace::Memory,
        _ => ReturnPlace::Void,
    }
}

// Where a value with these two classes is returned; void has none.
fn by_kinds(first: Class, second: Class) -> ReturnPlace
    ensures { result ≡ return_of (first ∷ second ∷ []) }
{
    let kinds = shapes::kinds_of(first, second);
    match Used::fresh(false).in_registers(kinds) {
        None => outside_registers(first),
        Some(Place::One(register)) => ReturnPlace::One(register),
        Some(Place::Two(low, high)) => ReturnPlace::Two(low, high),
        Some(Place::Stack(_)) => ReturnPlace::Void,
    }
}

// Where a value with these two classes, or with the four of an __m256, is returned: a short way for one eightbyte.
pub fn return_place(first: Class, second: Class, wide: bool) -> ReturnPlace
    ensures { result ≡ return_of (classes_by wide first second) }
{
    if wide {
        return ReturnPlace::One(Register::Wide(Registers(0)));
    }
    match (first, second) {
        (Class::Integer, Class::NoClass) => ReturnPlace::One(Register::General(Registers(0))),
        (Class::Sse, Class::NoClass) => ReturnPlace::One(Register::Vector(Registers(0))),
        _ => by_kinds(first, second),
    }
}

// Whether a hidden address is passed for a returned value whose first class this is: "If the return type's class is MEMORY".
pub fn hidden_for(first: Class) -> bool
    ensures { result ≡ hidden_by first }
{
    matches!(first, Class::Memory)
}
