// The place of an argument by what is used before it and after it, which `use_argument` says: it is on the stack where the stack arguments end later, and
// otherwise in the registers that were taken in between. So what is asked for is looked at once, and no record of a place goes through memory.
ghost use Rattle.std.specs.Prelude.{◌≡◌, ◌^◌, ◌≤◌, ◌<◌, ◌%◌};
ghost use Rattle.places.specs.Places.{eights, register_for, place};
ghost use Rattle.places.specs.Shapes.{shape_in};
ghost use Rattle.places.specs.Recorded.{place_of};
ghost use Rattle.places.specs.Asked.{first_kind, second_kind, last_for, Between};

use crate::{Argument, Place, Register, Used, argument_places};
use classes::Class;
use types::Extent;
use units::Bytes;

impl Used {
    // The register of the first of two eightbytes, by its class: the next of its file.
    fn first_of(self, class: Class) -> Register
        ensures { result ≡ register_for self.general.0 self.vector.0 (first_kind class) }
    {
        match class {
            Class::Integer => Register::General(self.general),
            _ => Register::Vector(self.vector),
        }
    }

    // The register of the second, by its class: the last that is used of its file.
    fn last_of(self, class: Class) -> Register
        ensures { result ≡ last_for self (second_kind class) }
    {
        match class {
            Class::Integer => Register::General(self.general.before_last()),
            Class::Sse => Register::Vector(self.vector.before_last()),
            _ => Register::Upper(self.vector.before_last()),
        }
    }

    // The registers of an argument of over 8 bytes: one that is wide, or two.
    fn over_eight(self, after: Used, argument: Argument) -> Place
        requires { Between argument.named argument.entry.0 self after × (8 < argument.entry.0 % 8192)
            × (after.stack.0 ≤ self.stack.0) }
        ensures { place_of result ≡ place eights self (shape_in argument.named argument.entry.0) }
    {
        if argument.entry.is_wide() {
            return Place::One(Register::Wide(self.vector));
        }
        let [first, second] = argument.entry.classes();
        Place::Two(self.first_of(first), after.last_of(second))
    }

    // The place of an argument, where `after` is used once it is placed.
    #[inline(always)]
    pub fn place_between(self, after: Used, argument: Argument) -> Place
        requires { (self.stack.0 ≤ 2 ^ 20) × Between argument.named argument.entry.0 self after }
        ensures { place_of result ≡ place eights self (shape_in argument.named argument.entry.0) }
    {
        let Extent { size, align } = argument.extent();
        if after.stack > self.stack {
            Place::Stack(argument_places::stack_start(self.stack, align))
        } else if size > Bytes(8) {
            self.over_eight(after, argument)
        } else if after.general > self.general {
            Place::One(Register::General(self.general))
        } else {
            Place::One(Register::Vector(self.vector))
        }
    }
}
