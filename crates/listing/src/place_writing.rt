// The words of registers and places (document 01, "The lister").
ghost use Rattle.std.specs.Prelude.{◌+◌, ◌≤◌};
ghost use Rattle.listing.specs.Puts.{Puts};
ghost use Rattle.listing.specs.PlaceWords.{general_word, vector_word, register_word, place_words, return_words, offset_of};

use crate::Text;
use places::{Place, Register, ReturnPlace};

// The n-th general register, of a returned value or of an argument. By number: a place names its register so, and `general_word` is by it.
fn put_general(text: &mut Text, back: bool, n: usize)
    requires { text.old.at + 4 ≤ 8192 }
    ensures { Puts 4 text.old text.new (general_word back n) }
{
    if back {
        match n {
            0 => text.put(b" rax"),
            1 => text.put(b" rdx"),
            _ => {}
        }
    } else {
        match n {
            0 => text.put(b" rdi"),
            1 => text.put(b" rsi"),
            2 => text.put(b" rdx"),
            3 => text.put(b" rcx"),
            4 => text.put(b" r8"),
            5 => text.put(b" r9"),
            _ => {}
        }
    }
}

// xmm0 to xmm7.
fn put_vector(text: &mut Text, n: usize)
    requires { text.old.at + 5 ≤ 8192 }
    ensures { Puts 5 text.old text.new (vector_word n) }
{
    if n < 8 {
        text.put(b" xmm");
        text.put_digit(n);
    }
}

// A register of a returned value, or of an argument.
fn put_register(text: &mut Text, back: bool, register: Register)
    requires { text.old.at + 6 ≤ 8192 }
    ensures { Puts 6 text.old text.new (register_word back register) }
{
    match register {
        Register::General(n) => put_general(text, back, n.0),
        Register::Vector(n) => put_vector(text, n.0),
        Register::Upper(n) => {
            put_vector(text, n.0);
            text.put(b"h");
        }
        Register::Wide(n) => {
            put_vector(text, n.0);
            text.put(b"y");
        }
    }
}

// ---- places

// Registers in eightbyte order, or a stack offset.
pub fn put_place(text: &mut Text, place: Place)
    requires { (text.old.at + 12 ≤ 8192) × (offset_of place ≤ 16384) }
    ensures { Puts 12 text.old text.new (place_words place) }
{
    match place {
        Place::One(register) => put_register(text, false, register),
        Place::Two(first, second) => {
            put_register(text, false, first);
            put_register(text, false, second);
        }
        Place::Stack(offset) => text.put_number(b" stack ", offset.0),
    }
}

// Where a value is returned.
pub fn put_return_place(text: &mut Text, place: ReturnPlace)
    requires { text.old.at + 12 ≤ 8192 }
    ensures { Puts 12 text.old text.new (return_words place) }
{
    match place {
        ReturnPlace::Void => text.put(b" void"),
        ReturnPlace::Memory => text.put(b" memory"),
        ReturnPlace::One(register) => put_register(text, true, register),
        ReturnPlace::Two(first, second) => {
            put_register(text, true, first);
            put_register(text, true, second);
        }
        ReturnPlace::St0 => text.put(b" st0"),
        ReturnPlace::St0St1 => text.put(b" st0 st1"),
    }
}
