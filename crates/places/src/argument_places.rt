// The place of the next argument (document 01, "Places"): registers for each of its eightbytes, or the stack. `place` places one argument, and
// `use_argument` says what is used after it.
ghost use Rattle.std.specs.Prelude.{◌≡◌, not, ◌&&◌, ◌||◌, leb, ◌^◌, ◌≤◌, max, ◌/◌, ◌%◌, [], ◌∷◌};
ghost use Rattle.units.specs.Raise.{raise};
ghost use Rattle.places.specs.Steps.{stacked_at, IsFound};
ghost use Rattle.places.specs.Places.{eights, area_align, register_for, taking, enough, stacking, place, next};
ghost use Rattle.places.specs.Recorded.{listed, asked, place_of, Room, Small};
ghost use Rattle.classify.specs.Table.{wide_in};
ghost use Rattle.places.specs.Shapes.{shape_in, Asking};

use crate::{Argument, Kind, Kinds, Place, Register, Shape, Used};
use types::Extent;
use units::{Bytes, Registers};

// "The lowest offset, after the one before, that is a multiple of 8 and of its alignment". By a test, so that most take no division.
pub fn stack_start(end: Bytes, align: Bytes) -> Bytes
    requires { (end.0 ≤ 2 ^ 20) × (align.0 ≤ 32) }
    ensures { result.0 ≡ raise (max 8 align.0) end.0 }
{
    if align > Bytes(8) {
        end.raised_to(align)
    } else {
        end.raised_to(Bytes(8))
    }
}

impl Used {
    // What the area is rounded up to: "rounded up to 16", and "an area with a 32-byte aligned argument on it is rounded up to 32".
    pub fn area_align(self) -> Bytes
        ensures { result.0 ≡ area_align self }
    {
        if self.strict { Bytes(32) } else { Bytes(16) }
    }

    // The area: what ends at `stack`, rounded up to its alignment.
    pub fn area(self) -> Bytes
        requires { self.stack.0 ≤ 2 ^ 20 }
        ensures { result.0 ≡ raise (area_align self) self.stack.0 }
    {
        self.stack.raised_to(self.area_align())
    }

    // On the stack: "the lowest offset, after the one before, that is a multiple of 8 and of its alignment; the room it takes is rounded up to 8".
    fn on_stack(&mut self, size: Bytes, align: Bytes) -> Bytes
        requires { (self.old.stack.0 ≤ 2 ^ 20) × (size.0 ≤ 4096) × (align.0 ≤ 32) }
        ensures { (result.0 ≡ raise (max 8 align.0) self.old.stack.0) × (self.new ≡ stacked_at self.old size.0 align.0) }
    {
        let offset = stack_start(self.stack, align);
        self.stack = (offset + size).raised_to(Bytes(8));
        self.strict = self.strict || align >= Bytes(32);
        offset
    }

    // ---- registers

    // Whether there are as many registers as are used.
    fn is_enough(self) -> bool
        ensures { result ≡ enough self }
    {
        self.general <= Registers(6) && self.vector <= Registers(8)
    }

    // The next register for one eightbyte, be there so many or not.
    fn take(&mut self, kind: Kind) -> Register
        requires { (self.old.general.0 ≤ 7) × (self.old.vector.0 ≤ 9) }
        ensures { (result ≡ register_for self.old.general.0 self.old.vector.0 kind) × (self.new ≡ taking self.old (kind ∷ [])) }
    {
        let Used {
            general,
            vector,
            ..
        } = *self;
        match kind {
            Kind::General => {
                self.general = general + Registers(1);
                Register::General(general)
            }
            Kind::Vector => {
                self.vector = vector + Registers(1);
                Register::Vector(vector)
            }
            Kind::Upper => Register::Upper(vector.before_last()),
            Kind::Wide => {
                self.vector = vector + Registers(1);
                Register::Wide(vector)
            }
        }
    }

    // A register for each eightbyte: "If any eightbyte finds no register", none.
    pub(crate) fn in_registers(&mut self, kinds: Kinds) -> Option<Place>
        requires { (self.old.general.0 ≤ 6) × (self.old.vector.0 ≤ 8) }
        ensures { IsFound self.old (listed kinds) result self.new }
    {
        let mut after = *self;
        let place = match kinds {
            Kinds::Stack => return None,
            Kinds::One(kind) => Place::One(after.take(kind)),
            Kinds::Two(low, high) => {
                let first = after.take(low);
                Place::Two(first, after.take(high))
            }
        };
        if !after.is_enough() {
            return None;
        }
        *self = after;
        Some(place)
    }

    // ---- one argument

    // The place of the next argument, and what is used after it. "If any eightbyte finds no register, the whole argument goes on the
    // stack and takes none."
    pub fn place(&mut self, shape: Shape) -> Place
        requires { Room self.old × Small (asked shape) }
        ensures { (place_of result ≡ place eights self.old (asked shape)) × (self.new ≡ next eights self.old (asked shape)) }
    {
        match self.in_registers(shape.kinds) {
            Some(place) => place,
            None => Place::Stack(self.on_stack(shape.size, shape.align)),
        }
    }

    // What is used once an argument is on the stack: a short way for one that is aligned to 8 or less, as most are, and never makes the area's
    // alignment 32.
    fn use_stack(&mut self, argument: Argument)
        requires { Room self.old × Small (shape_in argument.named argument.entry.0) }
        ensures { self.new ≡ stacking eights self.old (shape_in argument.named argument.entry.0) }
    {
        let Extent { size, align } = argument.extent();
        if align > Bytes(8) {
            self.on_stack(size, align);
        } else {
            self.stack = (self.stack.raised_to(Bytes(8)) + size).raised_to(Bytes(8));
        }
    }

    // What is used after an argument, as `place` says it, without the place. Whether an unnamed one is wide is asked only where there are
    // registers for it.
    #[inline(always)]
    pub fn use_argument(&mut self, argument: Argument)
        requires { Room self.old × Small (shape_in argument.named argument.entry.0) × Asking argument.entry.0 }
        ensures { self.new ≡ next eights self.old (shape_in argument.named argument.entry.0) }
    {
        let asks = argument.asks();
        let general = self.general + asks.general;
        let vector = self.vector + asks.vector;
        if general <= Registers(6) && vector <= Registers(8) && !argument.is_unnamed_wide() {
            self.general = general;
            self.vector = vector;
        } else {
            self.use_stack(argument);
        }
    }
}

// What a type asks for: so many general registers, more than there are where its class sends it to the stack, and so many vector ones.
#[derive(Clone, Copy)]
struct Asks {
    general: Registers,
    vector: Registers,
}

impl Argument {
    fn asks(self) -> Asks
        ensures { (result.general.0 ≡ self.entry.0 / 67108864 % 16)
            × (result.vector.0 ≡ self.entry.0 / 67108864 / 16)
            × (result.vector.0 ≤ 2 ^ 40) }
    {
        let asks = self.entry.asks();
        Asks {
            general: Registers(asks % 16),
            vector: Registers(asks / 16),
        }
    }

    // "An unnamed one, structures included, is always on the stack": whether it is such.
    fn is_unnamed_wide(self) -> bool
        ensures { result ≡ (not self.named && wide_in (self.entry.0 / 524288)) }
    {
        !self.named && self.entry.is_wide()
    }
}
