// The lines of the lister's text (document 01, "The lister"; document 02, request 2026-07): the first, that of an argument, that of the returned value, the last, and that of a refusal.
ghost use Rattle.std.specs.Prelude.{◌+◌, ◌≤◌, ◌<◌, eqb, ◌≡◌};
ghost use Rattle.listing.specs.Puts.{Puts};
ghost use Rattle.listing.specs.Listing.{head_line, mark_word, record_line, type_words, return_line, walk_line, names_type, refused_line};
ghost use Rattle.listing.specs.Asks.{SmallLayout, SmallRecord, SmallUsed};

use crate::{Text, place_writing};
use form::Refusal;
use layout::{Layout, Placement};
use places::{ReturnPlace, Used};

// "Line one: version, A, N, registers used (hidden address included), vector count, area".
pub fn put_head(text: &mut Text, all: usize, first: usize, layout: Layout)
    requires { (text.old.at + 60 ≤ 8192) × (all < 256) × (first < 256) × SmallLayout layout }
    ensures { Puts 60 text.old text.new (head_line all first layout) }
{
    text.put_number(b"KCB 1 args ", all);
    text.put_number(b" named ", first);
    text.put_number(b" gp ", layout.used.general.0);
    text.put_number(b" vec ", layout.used.vector.0);
    text.put_number(b" stack ", layout.area.0);
    text.put(b"\n");
}

// "`named` or `unnamed`".
fn put_mark(text: &mut Text, named: bool)
    requires { text.old.at + 8 ≤ 8192 }
    ensures { Puts 8 text.old text.new (mark_word named) }
{
    if named {
        text.put(b" named");
    } else {
        text.put(b" unnamed");
    }
}

// "Then per argument: position, type, size, alignment, place"; "The lister appends `at 12 named` or `at 12 unnamed`".
pub fn put_record(text: &mut Text, i: usize, placement: Placement)
    requires { (text.old.at + 69 ≤ 8192) × (i < 64) × SmallRecord placement }
    ensures { Puts 69 text.old text.new (record_line i placement) }
{
    text.put_number(b"", i);
    text.put_number(b" type ", usize::from(placement.ty));
    text.put_number(b" size ", placement.size.0);
    text.put_number(b" align ", placement.align.0);
    place_writing::put_place(text, placement.place);
    text.put_number(b" at ", placement.at.0);
    put_mark(text, placement.named);
    text.put(b"\n");
}

// The returned type, where there is one: 255 is void.
fn put_type(text: &mut Text, k: usize)
    requires { (text.old.at + 11 ≤ 8192) × (k < 256) }
    ensures { Puts 11 text.old text.new (type_words (eqb k 255) k) }
{
    if k != 255 {
        text.put_number(b" type ", k);
    }
}

// "`return void` or `return type K memory`".
pub fn put_return(text: &mut Text, k: usize, place: ReturnPlace)
    requires { (text.old.at + 30 ≤ 8192) × (k < 256) }
    ensures { Puts 30 text.old text.new (return_line k place) }
{
    text.put(b"return");
    put_type(text, k);
    place_writing::put_return_place(text, place);
    text.put(b"\n");
}

// gp_offset, fp_offset and the overflow offset where a walk starts; "a plain function ends with `walk none`". A number: `walk_line` takes the mark as byte 6 has it.
pub fn put_walk(text: &mut Text, variadic: usize, named: Used)
    requires { (text.old.at + 34 ≤ 8192) × SmallUsed named }
    ensures { Puts 34 text.old text.new (walk_line variadic named) }
{
    if variadic == 0 {
        text.put(b"walk none\n");
        return;
    }
    text.put_number(b"walk gp ", named.general.general_bytes().0);
    text.put_number(b" fp ", 48 + named.vector.vector_bytes().0);
    text.put_number(b" over ", named.stack.0);
    text.put(b"\n");
}

// Whether a refusal with this number names a type.
fn names_type(number: u8) -> bool
    ensures { result ≡ names_type number }
{
    number == 6 || number == 7
}

// The line of a refusal: `refused 8`, or `refused 6 type 12`. The number decides, since the type can be 0.
pub fn put_refused(text: &mut Text, refusal: Refusal)
    requires { text.old.at + 25 ≤ 8192 }
    ensures { Puts 25 text.old text.new (refused_line refusal) }
{
    text.put_number(b"refused ", usize::from(refusal.number));
    if names_type(refusal.number) {
        text.put_number(b" type ", usize::from(refusal.ty));
    }
    text.put(b"\n");
}
