// Which registers a value asks for, by its classes (document 01, "Places").
ghost use Rattle.std.specs.Prelude.{◌≡◌, ◌||◌, [], ◌∷◌, ◌/◌};
ghost use Rattle.classes.specs.declared.Class.TheVariants.{Memory};
ghost use Rattle.classes.specs.Classes.{same, is_x87};
ghost use Rattle.types.specs.Table.{IsEntry};
ghost use Rattle.places.specs.Shapes.{kind_of, kinds_of, kinds_for, shape_in};
ghost use Rattle.places.specs.Recorded.{at_most_one, listed, asked};
ghost use Rattle.classify.specs.Table.{unpacked_of};

use crate::{Argument, Kind, Kinds, Shape};
use classes::Class;
use types::Extent;

// "MEMORY, X87, X87UP and COMPLEX_X87 go on the stack".
fn goes_on_stack(class: Class) -> bool
    ensures { result ≡ (same class Memory || is_x87 class) }
{
    matches!(
        class,
        Class::Memory | Class::X87 | Class::X87Up | Class::ComplexX87
    )
}

// What an eightbyte of this class asks for.
fn kind_of(class: Class) -> Option<Kind>
    ensures { at_most_one result ≡ kind_of class }
{
    match class {
        Class::Integer => Some(Kind::General),
        Class::Sse => Some(Kind::Vector),
        Class::SseUp => Some(Kind::Upper),
        _ => None,
    }
}

// What the eightbytes of a value with these two classes ask for.
pub fn kinds_of(first: Class, second: Class) -> Kinds
    ensures { listed result ≡ kinds_of (first ∷ second ∷ []) }
{
    if goes_on_stack(first) || goes_on_stack(second) {
        return Kinds::Stack;
    }
    match (kind_of(first), kind_of(second)) {
        (Some(low), Some(high)) => Kinds::Two(low, high),
        (Some(kind), None) => Kinds::One(kind),
        (None, Some(kind)) => Kinds::One(kind),
        (None, None) => Kinds::Stack,
    }
}

impl Argument {
    // Size and alignment of its type.
    #[inline(always)]
    pub fn extent(self) -> Extent
        ensures { IsEntry self.entry.0 result }
    {
        types::extent_by(self.entry.0)
    }

    // What it asks for: "A named argument of these four classes takes one vector register; an unnamed one, structures included, is
    // always on the stack".
    fn kinds(self) -> Kinds
        ensures { listed result ≡ kinds_for self.named (unpacked_of (self.entry.0 / 524288)) }
    {
        if self.entry.is_wide() {
            return if self.named {
                Kinds::One(Kind::Wide)
            } else {
                Kinds::Stack
            };
        }
        let [first, second] = self.entry.classes();
        kinds_of(first, second)
    }

    // What places it.
    pub fn shape(self) -> Shape
        ensures { asked result ≡ shape_in self.named self.entry.0 }
    {
        let kinds = self.kinds();
        let Extent { size, align } = self.extent();
        Shape { kinds, size, align }
    }
}
