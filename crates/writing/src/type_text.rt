// A type of a description written as C text into a lent buffer (request 2026-08).
ghost use Rattle.std.specs.Prelude.{◌≡◌, [], ◌∷◌, ◌++◌, ◌+◌, ◌≤◌, ◌<◌, eqb, length};
ghost use Rattle.description.specs.Description.{model_in};
ghost use Rattle.listing.specs.Decimal.{decimal};
ghost use Rattle.listing.specs.Puts.{Puts};
ghost use Rattle.types.specs.Asks.{Sized};
ghost use Rattle.listing.specs.Characters.{bytes};
ghost use Rattle.declaring.specs.Length.{words_length};
ghost use Rattle.writing.specs.Texts.{words_text, type_text, sizes_text, members_text, group_text, AskMembers};

use description::TypeRecord;
use listing::Text;

// The words of a basic type. By number: a code is a byte of the description, and `words_text` is by it.
fn put_words(text: &mut Text, code: usize)
    requires { (code < 17) × (text.old.at + length (words_text code) ≤ 8192) }
    ensures { Puts (length (words_text code)) text.old text.new (words_text code) }
{
    match code {
        0 => text.put(b"_Bool "),
        1 => text.put(b"char "),
        2 => text.put(b"short "),
        3 => text.put(b"int "),
        4 => text.put(b"long long "),
        5 => text.put(b"__int128 "),
        6 => text.put(b"float "),
        7 => text.put(b"double "),
        8 => text.put(b"long double "),
        9 => text.put(b"__float128 "),
        10 => text.put(b"__m64 "),
        11 => text.put(b"__m128 "),
        12 => text.put(b"float _Complex "),
        13 => text.put(b"double _Complex "),
        14 => text.put(b"long double _Complex "),
        15 => text.put(b"void * "),
        16 => text.put(b"__m256 "),
        _ => {}
    }
}

// "m12 "
fn put_name(text: &mut Text, i: usize)
    requires { text.old.at + (2 + length (decimal i)) ≤ 8192 }
    ensures { Puts (2 + length (decimal i)) text.old text.new ((109 ∷ []) ++ (decimal i ++ (32 ∷ []))) }
{
    text.put(b"m");
    text.put_decimal(i);
    text.put(b" ");
}

// "[ 12 ] "
fn put_size(text: &mut Text, n: usize)
    requires { text.old.at + (5 + length (decimal n)) ≤ 8192 }
    ensures { Puts (5 + length (decimal n)) text.old text.new (bytes "[ " ++ (decimal n ++ bytes " ] ")) }
{
    text.put(b"[ ");
    text.put_decimal(n);
    text.put(b" ] ");
}

// The sizes of type k, the outermost first.
fn put_sizes(d: &[u8], k: usize, text: &mut Text)
    requires { Sized (model_in d.now) d.now k × (text.old.at + length (sizes_text d.now k) ≤ 8192) }
    ensures { Puts (length (sizes_text d.now k)) text.old text.new (sizes_text d.now k) }
{
    if let TypeRecord::Array { element, count } = description::record_at(d, k) {
        put_size(text, count);
        put_sizes(d, element, text);
    }
}

// What stands before the members.
fn put_group(text: &mut Text, union: bool)
    requires { text.old.at + length (group_text union) ≤ 8192 }
    ensures { Puts (length (group_text union)) text.old text.new (group_text union) }
{
    if union {
        text.put(b"union { ");
    } else {
        text.put(b"struct { ");
    }
}

// Type k without its sizes.
#[cycle(put_types)]
pub fn put_type(d: &[u8], k: usize, text: &mut Text)
    requires { Sized (model_in d.now) d.now k × (text.old.at + length (type_text d.now k) ≤ 8192) }
    ensures { Puts (length (type_text d.now k)) text.old text.new (type_text d.now k) }
{
    match description::record_at(d, k) {
        TypeRecord::Basic { code, .. } => put_words(text, code),
        TypeRecord::Array { element, .. } => put_type(d, element, text),
        TypeRecord::Group {
            union,
            first,
            count,
        } => {
            put_group(text, union);
            put_members(d, k, first, count, text);
            text.put(b"} ");
        }
    }
}

// `count` members of type k, from place `first` of the member list on.
#[cycle(put_types)]
fn put_members(d: &[u8], k: usize, first: usize, count: usize, text: &mut Text)
    requires { AskMembers d.now k first count × (text.old.at + length (members_text d.now 0 first count) ≤ 8192) }
    ensures { Puts (length (members_text d.now 0 first count)) text.old text.new (members_text d.now 0 first count) }
{
    for i in 0..count {
        let member = description::member_at(d, first + i);
        put_type(d, member, text);
        put_name(text, i);
        put_sizes(d, member, text);
        text.put(b"; ");
    }
}
