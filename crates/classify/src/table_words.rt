// The classes of a basic type, and a type's classes as one word of the table: packed with what they ask for, put into an entry, and read again.
ghost use Rattle.std.specs.Prelude.{◌≡◌, ◌/◌, ◌<◌, ◌≤◌, get_or};
ghost use Rattle.classify.specs.Classify.{one_class, basic_at};
ghost use Rattle.classify.specs.Table.{pair_in, wide_in, ask_of, asks_of};

use crate::packed_classes::Packed;
use classes::Class;
use units::Bytes;

// A basic type in parts: its first class, the class of its second part, NO_CLASS where there is none, and how far on that part starts.
#[derive(Clone, Copy)]
struct Parts {
    first: Class,
    second: Class,
    gap: Bytes,
}

impl Parts {
    ghost use Rattle.std.specs.Prelude.{◌≡◌, ◌<◌};
    ghost use Rattle.classify.specs.Classify.{first_class, second_class, gap};

    // One part.
    fn one(first: Class) -> Parts
        ensures one { (result.first ≡ first) × (result.second ≡ Class.NoClass) × (result.gap.0 ≡ 0) }
    {
        Parts {
            first,
            second: Class::NoClass,
            gap: Bytes(0),
        }
    }

    fn two(first: Class, second: Class, gap: usize) -> Parts
        ensures two { (result.first ≡ first) × (result.second ≡ second) × (result.gap.0 ≡ gap) }
    {
        Parts {
            first,
            second,
            gap: Bytes(gap),
        }
    }

    // Of each code below 16.
    #[tactic(auto, unfolding(crate::specs::Classify::first_class, crate::specs::Classify::second_class, crate::specs::Classify::gap))]
    fn of(code: usize) -> Parts
        requires { code < 16 }
        ensures first { result.first ≡ first_class code }
        ensures second { result.second ≡ second_class code }
        ensures gap { result.gap.0 ≡ gap code }
    {
        match code {
            0 | 1 | 2 | 3 | 4 | 15 => Parts::one(Class::Integer),
            5 => Parts::two(Class::Integer, Class::Integer, 8),
            6 | 7 | 10 => Parts::one(Class::Sse),
            8 => Parts::two(Class::X87, Class::X87Up, 8),
            9 | 11 => Parts::two(Class::Sse, Class::SseUp, 8),
            12 => Parts::two(Class::Sse, Class::Sse, 4),
            13 => Parts::two(Class::Sse, Class::Sse, 8),
            _ => Parts::one(Class::ComplexX87),
        }
    }
}

// Of each code: its classes at offset 0 and what they ask for, in one number as `word_of` makes it. INTEGER alone is 64 + 1, and
// 128 for one general register: 193. SSE and three SSEUP are 26, without the 64, and 128 times 16 for one vector register.
// Not beside the parts: code 16 has a word and no parts.
const WORDS: [u16; 17] = [
    193, 193, 193, 193, 193, 329, 2114, 2114, 1900, 2138, 2114, 2138, 2114, 4178, 966, 193, 2074,
];

// One class, in the eightbyte that `at` lies in.
fn put_class(at: Bytes, class: Class) -> [Class; 2]
    ensures { result ≡ one_class 2 at.0 class }
{
    let i = at.eightbyte().0;
    let mut classes = [Class::NoClass, Class::NoClass];
    if i < 2 {
        classes[i] = class;
    }
    classes
}

// A basic type at offset `at`.
pub fn basic_at(code: usize, at: Bytes) -> [Class; 2]
    requires { (code < 16) × (at.0 ≤ 4096) }
    ensures { result ≡ basic_at 2 code at.0 }
{
    let parts = Parts::of(code);
    let first = put_class(at, parts.first);
    classes::merge_both(first, put_class(at + parts.gap, parts.second))
}

// What is asked for where a class sends the argument to the stack: one general register more than there are, so that it never fits.
const ON_STACK: u32 = 7;

// What an eightbyte of this class asks for: general registers, and 16 times vector ones.
fn ask_of(class: Class) -> u32
    ensures { result ≡ ask_of class }
{
    match class {
        Class::NoClass | Class::SseUp => 0,
        Class::Integer => 1,
        Class::Sse => 16,
        Class::X87 | Class::X87Up | Class::ComplexX87 | Class::Memory => ON_STACK,
    }
}

// What a value with these classes asks for.
#[tactic(auto, using(crate::proofs::Table::ask_small), unfolding(crate::specs::Table::asks_of, classes::specs::Classes::same))]
fn asks_of(classes: [Class; 2]) -> u32
    ensures { result ≡ asks_of classes }
{
    match classes {
        [Class::NoClass, Class::NoClass] => ON_STACK,
        [first, second] => ask_of(first) + ask_of(second),
    }
}

// The classes of a type and what they ask for, in one number.
#[derive(Clone, Copy)]
pub struct Word(pub u32);

impl Word {
    ghost use Rattle.std.specs.Prelude.{◌≡◌, ◌<◌};
    ghost use Rattle.types.specs.Tree.{basic};
    ghost use Rattle.description.specs.declared.Model.{Model};
    ghost use Rattle.classify.specs.Classify.{classes_of};
    ghost use Rattle.classify.specs.Table.{word_of};

    // SSE and three SSEUP, which ask for one vector register.
    pub const VECTOR: Word = Word(2074);

    // MEMORY, which asks for more than there are.
    pub const MEMORY: Word = Word(967);

    // The word of a basic type.
    #[tactic(auto, using(crate::proofs::Table::basic_words))]
    pub fn basic(code: usize) -> Word
        requires { code < 17 }
        ensures { (m : Model) → result.0 ≡ word_of (classes_of m (basic code)) }
    {
        Word(u32::from(WORDS[code]))
    }
}

impl From<Packed> for Word {
    ghost use Rattle.std.specs.Prelude.{◌≡◌};
    ghost use Rattle.classify.specs.Table.{pair_in, word_of};

    ghost from_gives = { λ packed r. r.0 ≡ word_of (pair_in packed.0) };

    fn from(packed: Packed) -> Word {
        let classes = packed.classes();
        Word(u32::from(Packed::from(classes).0) + 128 * asks_of(classes))
    }
}

// An entry of the table of types, once its word is there: 524,288 times the word, above size and alignment.
#[derive(Clone, Copy)]
pub struct Entry(pub u32);

impl Entry {
    ghost use Rattle.std.specs.Prelude.{◌≡◌, ◌+◌, ◌*◌, ◌/◌, ◌%◌, ◌<◌};
    ghost use Rattle.classify.specs.Table.{pair_in, wide_in, unpacked_of};

    // With a word in place of the one that is there.
    pub(crate) fn with_word(self, word: Word) -> Entry
        requires { word.0 < 8192 }
        ensures { result.0 ≡ self.0 % 524288 + 524288 * word.0 }
    {
        Entry(self.0 % 524288 + 524288 * word.0)
    }

    // Its classes.
    #[tactic(auto, using(crate::proofs::Known::seven_unpacked))]
    pub(crate) fn packed(self) -> Packed
        ensures number { result.0 ≡ self.0 / 524288 % 128 }
        ensures classes { unpacked_of result.0 ≡ unpacked_of (self.0 / 524288) }
    {
        Packed((self.0 / 524288 % 128) as u8)
    }

    // The registers that its classes ask for: general ones, and 16 times vector ones.
    pub fn asks(self) -> usize
        ensures { result ≡ self.0 / 67108864 }
    {
        (self.0 / 67108864) as usize
    }

    // Whether it has the four classes of a vector of 32 bytes.
    pub fn is_wide(self) -> bool
        ensures { result ≡ wide_in (self.0 / 524288) }
    {
        self.packed() == Packed::VECTOR
    }

    // Its classes, the first two of a vector's.
    #[tactic(auto, using(crate::proofs::Known::seven_bits))]
    pub fn classes(self) -> [Class; 2]
        ensures { result ≡ pair_in (self.0 / 524288) }
    {
        self.packed().classes()
    }
}

// Whether type k has the four classes of a vector of 32 bytes, by the table.
pub fn is_wide(table: &[u32; 64], k: usize) -> bool
    requires { k < 64 }
    ensures { result ≡ wide_in (get_or table.now k 0 / 524288) }
{
    Entry(table[k]).is_wide()
}

// The classes of type k, by the table; of one that is wide, the first two.
pub fn classes_in(table: &[u32; 64], k: usize) -> [Class; 2]
    requires { k < 64 }
    ensures { result ≡ pair_in (get_or table.now k 0 / 524288) }
{
    Entry(table[k]).classes()
}
