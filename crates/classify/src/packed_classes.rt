// Two classes in one number, merged and cleaned up. Where a test of the numbers shows that nothing changes, they are kept; all else goes by the rules, over
// two arrays of classes.
use classes::Class;

// 64, the number of the first class, and eight times that of the second. SSE and three SSEUP, which nothing over two eightbytes but a vector of 32 bytes has,
// are 26, that is the first two of them, without the 64.
#[derive(Clone, Copy, PartialEq, Eq, Debug)]
pub struct Packed(pub u8);

impl Packed {
    ghost use Rattle.std.specs.Prelude.{◌≡◌, ◌/◌, ◌%◌, ◌<◌, eqb, ltb, ◌&&◌, ◌||◌};
    ghost use Rattle.classes.specs.Classes.{merge_of, merge_all};
    ghost use Rattle.classes.specs.CleanUp.{clean_up};
    ghost use Rattle.classify.specs.Vectors.{fits_vector};
    ghost use Rattle.classify.specs.Table.{class_by, pair_in, unpacked_of};

    // NO_CLASS twice.
    pub const NONE: Packed = Packed(64);

    pub const VECTOR: Packed = Packed(26);

    // The number of the first class.
    pub fn first(self) -> u8
        ensures { result ≡ self.0 % 8 }
    {
        self.0 % 8
    }

    // The number of the second class.
    pub fn second(self) -> u8
        ensures { result ≡ self.0 / 8 % 8 }
    {
        self.0 / 8 % 8
    }

    // The class with a number below 8. By a match, which the compiler turns into nothing: a table would be read at each merge by the rules.
    #[tactic(auto, unfolding(crate::specs::Table::class_by))]
    fn class_by(number: u8) -> Class
        requires { number < 8 }
        ensures { result ≡ class_by number }
    {
        match number {
            0 => Class::NoClass,
            1 => Class::Integer,
            2 => Class::Sse,
            3 => Class::SseUp,
            4 => Class::X87,
            5 => Class::X87Up,
            6 => Class::ComplexX87,
            _ => Class::Memory,
        }
    }

    // The two classes, the first two of a vector's.
    #[tactic(auto, unfolding(crate::specs::Table::pair_in))]
    pub fn classes(self) -> [Class; 2]
        ensures { result ≡ pair_in self.0 }
    {
        [Self::class_by(self.first()), Self::class_by(self.second())]
    }

    // Whether a class with the number `class` changes nothing in an eightbyte of class `merged`: "equal; one NO_CLASS gives the other".
    fn adds_nothing(merged: u8, class: u8) -> bool
        ensures { result ≡ (eqb class 0 || eqb merged class) }
    {
        class == 0 || merged == class
    }

    // Merged by the rules.
    fn merged_by_rules(self, other: Packed) -> Packed
        ensures { pair_in result.0 ≡ merge_all (pair_in self.0) (pair_in other.0) }
    {
        Packed::from(classes::merge_both(self.classes(), other.classes()))
    }

    // Merged where nothing changes in the first eightbyte.
    #[tactic(auto, using(crate::proofs::Packed::merged_next, crate::proofs::Packed::merged_kept))]
    fn merged_second(self, other: Packed) -> Packed
        requires { merge_of (class_by (self.0 % 8)) (class_by (other.0 % 8)) ≡ class_by (self.0 % 8) }
        ensures { pair_in result.0 ≡ merge_all (pair_in self.0) (pair_in other.0) }
    {
        let second = other.second();
        if self.second() == 0 {
            Packed(64 + self.first() + 8 * second)
        } else if Self::adds_nothing(self.second(), second) {
            self
        } else {
            self.merged_by_rules(other)
        }
    }

    // The classes of one more member, merged into those so far.
    #[tactic(auto, using(crate::proofs::Packed::merged_same, crate::proofs::Packed::merged_first, crate::proofs::Packed::adds_nothing))]
    pub fn merged(self, other: Packed) -> Packed
        ensures { pair_in result.0 ≡ merge_all (pair_in self.0) (pair_in other.0) }
    {
        if self == other {
            self
        } else if self == Self::NONE {
            other
        } else if Self::adds_nothing(self.first(), other.first()) {
            self.merged_second(other)
        } else {
            self.merged_by_rules(other)
        }
    }

    // Whether both classes are NO_CLASS, INTEGER or SSE, which no rule of clean-up is about.
    fn is_plain(self) -> bool
        ensures { result ≡ (ltb (self.0 % 8) 3 && ltb (self.0 / 8 % 8) 3) }
    {
        self.first() < 3 && self.second() < 3
    }

    // Whether a type with these classes leaves a vector one that it is merged into: SSE, alone or with SSEUP behind it.
    #[tactic(auto, using(crate::proofs::OverTwo::fits_word))]
    pub fn fits_vector(self) -> bool
        ensures { result ≡ fits_vector (unpacked_of self.0) }
    {
        self.first() == 2 && (self.second() == 0 || self.second() == 3)
    }

    // What is done after merging.
    #[tactic(auto, using(crate::proofs::Packed::clean_kept))]
    pub fn cleaned(self) -> Packed
        ensures { pair_in result.0 ≡ clean_up (pair_in self.0) }
    {
        if self.is_plain() {
            self
        } else {
            Packed::from(classes::clean_up(self.classes()))
        }
    }
}

impl From<[Class; 2]> for Packed {
    ghost use Rattle.std.specs.Prelude.{◌≡◌};
    ghost use Rattle.classify.specs.Table.{pair_in, packed_of};

    ghost from_gives = { λ classes r. (r.0 ≡ packed_of classes) × (pair_in r.0 ≡ classes) };

    fn from(classes: [Class; 2]) -> Packed {
        Packed(64 + u8::from(classes[0]) + 8 * u8::from(classes[1]))
    }
}
