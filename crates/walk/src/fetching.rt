// Where a walk stands before an argument, where it fetches it and where it stands then (000, section 3.5.7).
ghost use Rattle.std.specs.Prelude.{◌≡◌, [], ◌∷◌, cond, suc, ◌+◌, ◌*◌, ◌^◌, ◌<◌, ◌≤◌, ltb};
ghost use Rattle.units.specs.Raise.{raise};
ghost use Rattle.places.specs.Places.{eights};
ghost use Rattle.places.specs.Recorded.{listed, asked as asked_of, Small};
ghost use Rattle.walk.specs.Offsets.{holds, read_at, step as step_offsets, source_of, walk_at};
ghost use Rattle.walk.specs.Orders.{offsets_of, with_offsets};
ghost use Rattle.walk.specs.Asks.{InBounds, IsCounted, read_for};

use crate::{Counts, Fetch, Walk};
use places::{Kind, Kinds, Shape, Used};
use std::ops::Add;
use units::{Bytes, Registers};

// ---- num_gp and num_fp: "num_gp and num_fp are registers"

// The registers of one eightbyte.
impl From<Kind> for Counts {
    ghost from_gives = { λ kind counts. IsCounted (kind ∷ []) counts };

    fn from(kind: Kind) -> Counts {
        let (general, vector) = match kind {
            Kind::General => (1, 0),
            Kind::Vector | Kind::Wide => (0, 1),
            Kind::Upper => (0, 0),
        };
        Counts {
            general: Registers(general),
            vector: Registers(vector),
        }
    }
}

// The registers of some eightbytes, and of others.
impl Add for Counts {
    type Output = Counts;

    ghost can_add = { λ some more. (some.general.0 + more.general.0 < 2 ^ 64) × (some.vector.0 + more.vector.0 < 2 ^ 64) };

    ghost add_gives = { λ some more all. (all.general.0 ≡ some.general.0 + more.general.0) × (all.vector.0 ≡ some.vector.0 + more.vector.0) };

    fn add(self, more: Counts) -> Counts {
        Counts {
            general: self.general + more.general,
            vector: self.vector + more.vector,
        }
    }
}

// The registers that a type needs.
impl From<Kinds> for Counts {
    ghost from_gives = { λ kinds counts. IsCounted (listed kinds) counts };

    fn from(kinds: Kinds) -> Counts {
        match kinds {
            Kinds::Stack => Counts {
                general: Registers(0),
                vector: Registers(0),
            },
            Kinds::One(kind) => Counts::from(kind),
            Kinds::Two(low, high) => Counts::from(low) + Counts::from(high),
        }
    }
}

// ---- where the walk stands

impl Walk {
    // The walk before argument `position`, where so much is used.
    pub(crate) fn standing(number: u32, position: usize, used: Used) -> Self
        requires { (used.general.0 ≤ 6) × (used.vector.0 ≤ 8) }
        ensures { result ≡ with_offsets number position (walk_at used) }
    {
        Self {
            number,
            position,
            general: used.general.general_bytes(),
            vector: Bytes(48) + used.vector.vector_bytes(),
            overflow: used.stack,
        }
    }

    // Whether the type is fetched from the register image: "a type that may be in registers, with gp_offset at most 48 - 8 num_gp and
    // fp_offset at most 176 - 16 num_fp".
    fn fits(self, kinds: Kinds) -> bool
        ensures { result ≡ holds (offsets_of self) (listed kinds) }
    {
        let needed = Counts::from(kinds);
        !matches!(kinds, Kinds::Stack)
            && self.general <= Bytes(48) - needed.general.general_bytes()
            && self.vector <= Bytes(176) - needed.vector.vector_bytes()
    }

    // The overflow offset before an argument: "the walk raises to the type's alignment where that exceeds 8".
    fn raised(self, align: Bytes) -> Bytes
        requires { (self.overflow.0 ≤ 2 ^ 20) × (align.0 ≤ 32) }
        ensures { result.0 ≡ cond (ltb 8 align.0) (raise align.0 self.overflow.0) self.overflow.0 }
    {
        if align > Bytes(8) {
            return self.overflow.raised_to(align);
        }
        self.overflow
    }

    // The offset at which an eightbyte of this kind is read, behind those that took `passed`.
    fn read(self, passed: Counts, kind: Kind) -> Bytes
        requires { InBounds self × (passed.general.0 ≤ 1) × (passed.vector.0 ≤ 1) }
        ensures { result.0 ≡ read_for (self.general.0 + 8 * passed.general.0) (self.vector.0 + 16 * passed.vector.0) kind }
    {
        let vector = self.vector + passed.vector.vector_bytes();
        match kind {
            Kind::General => self.general + passed.general.general_bytes(),
            Kind::Vector | Kind::Wide => vector,
            Kind::Upper => vector - Bytes(8),
        }
    }

    // Where the argument that the walk stands before is fetched.
    pub fn fetch(self, shape: Shape) -> Fetch
        requires { InBounds self × Small (asked_of shape) }
        ensures { source_of result ≡ read_at eights (offsets_of self) (asked_of shape) }
    {
        let none = Counts::from(Kinds::Stack);
        let offset = self.raised(shape.align);
        if !self.fits(shape.kinds) {
            return Fetch::Stack(offset);
        }
        match shape.kinds {
            Kinds::Stack => Fetch::Stack(offset),
            Kinds::One(kind) => Fetch::One(self.read(none, kind)),
            Kinds::Two(low, high) => {
                let first = self.read(none, low);
                let second = self.read(Counts::from(low), high);
                Fetch::Two(first, second)
            }
        }
    }

    // The walk behind that argument: "both offsets move on", or "its size is added, and the result is raised to 8".
    pub fn behind(self, shape: Shape) -> Self
        requires { InBounds self × Small (asked_of shape) }
        ensures { result ≡ with_offsets self.number (suc self.position) (step_offsets eights (offsets_of self) (asked_of shape)) }
    {
        let position = self.position + 1;
        if self.fits(shape.kinds) {
            let needed = Counts::from(shape.kinds);
            return Self {
                position,
                general: self.general + needed.general.general_bytes(),
                vector: self.vector + needed.vector.vector_bytes(),
                ..self
            };
        }
        let end = self.raised(shape.align) + shape.size;
        Self {
            position,
            overflow: end.raised_to(Bytes(8)),
            ..self
        }
    }
}
