// The length of the text of each type of a description, from number 0 upward, at most 4,097; and of the whole declaration (request 2026-08, 25).
ghost use Rattle.std.specs.Prelude.{◌≡◌, ◌+◌, ◌≤◌, ◌<◌, length, get_or, cond};
ghost use Rattle.description.specs.Description.{model_in, types_in, named_in, return_in};
ghost use Rattle.layout.specs.Arguments.{is_void};
ghost use Rattle.types.specs.Asks.{Sized};
ghost use Rattle.uses.specs.Uses.{uses_refusal};
ghost use Rattle.listing.specs.Decimal.{decimal};
ghost use Rattle.declaring.specs.Length.{words_length, braces_length, capped};
ghost use Rattle.declaring.specs.Named.{written_text};
ghost use Rattle.declaring.specs.Lengths.{length_at, members_from, arguments_from};
ghost use Rattle.writing.specs.Texts.{AskMembers};
ghost use Rattle.writing.specs.Asks.{Lengths};

use description::TypeRecord;

const WORDS: [usize; 17] = [6, 5, 6, 4, 10, 9, 6, 7, 12, 11, 6, 7, 15, 16, 21, 7, 7];

// A table of fixed memory: 64 types at most, each of at most 4,097 bytes, filled once, number after number.
// An entry of the table.
fn entry_at(table: &[u32; 64], k: usize) -> usize
    requires { k < 64 }
    ensures { result ≡ get_or table.now k 0 }
{
    table[k] as usize
}

// The words of a basic type.
fn words_length(code: usize) -> usize
    requires { code < 17 }
    ensures { result ≡ words_length code }
{
    WORDS[code]
}

fn cap(n: usize) -> usize
    ensures { result ≡ capped n }
{
    n.min(4097)
}

// How many digits a number has.
fn digits(n: usize) -> usize
    requires { n < 100000 }
    ensures { (result ≡ length (decimal n)) × (result ≤ 5) }
{
    match n {
        0..=9 => 1,
        10..=99 => 2,
        100..=999 => 3,
        1000..=9999 => 4,
        _ => 5,
    }
}

// "struct { } " or "union { } "
fn braces(union: bool) -> usize
    ensures { (result ≡ braces_length union) × (result ≤ 11) }
{
    if union { 10 } else { 11 }
}

// `count` members of type k, from place `first` of the member list on, with what stands around them.
fn members_length(
    d: &[u8],
    k: usize,
    first: usize,
    count: usize,
    union: bool,
    table: &[u32; 64],
) -> usize
    requires { AskMembers d.now k first count × (count < 65536) × Lengths d.now k table.now }
    ensures { result ≡ members_from (length_at d.now) d.now (braces_length union) 0 first count }
{
    let mut x = braces(union);
    for i in 0..count {
        let member = description::member_at(d, first + i);
        let entry = entry_at(table, member);
        let many = digits(i);
        x = cap(x + (entry + (4 + many)));
    }
    x
}

// The length of type k, by the table of the types below it.
fn length_of(d: &[u8], k: usize, table: &[u32; 64]) -> usize
    requires { Sized (model_in d.now) d.now k × Lengths d.now k table.now }
    ensures { result ≡ length_at d.now k }
{
    match description::record_at(d, k) {
        TypeRecord::Basic { code, .. } => words_length(code),
        TypeRecord::Array { element, count } => {
            let entry = entry_at(table, element);
            let many = digits(count);
            cap(entry + (5 + many))
        }
        TypeRecord::Group {
            union,
            first,
            count,
        } => members_length(d, k, first, count, union, table),
    }
}

// The table, from number 0 upward.
pub fn fill_lengths(d: &[u8], table: &mut [u32; 64])
    requires { uses_refusal d.now ≡ 0 }
    ensures { Lengths d.now (types_in d.now) table.new }
{
    let types = description::byte_at(d, 5);
    for k in 0..types {
        let many = length_of(d, k, table);
        table[k] = many as u32;
    }
}

// "... " or "void "; ", ... " or nothing
fn empty_length(variadic: bool) -> usize
    ensures { (result ≡ cond variadic 4 5) × (result ≤ 5) }
{
    if variadic { 4 } else { 5 }
}

fn end_length(variadic: bool) -> usize
    ensures { (result ≡ cond variadic 6 0) × (result ≤ 6) }
{
    if variadic { 6 } else { 0 }
}

// The result's type, or void.
fn result_length(d: &[u8], table: &[u32; 64]) -> usize
    requires { (uses_refusal d.now ≡ 0) × Lengths d.now (types_in d.now) table.now }
    ensures { (result ≡ cond (is_void d.now) 5 (length_at d.now (return_in d.now))) × (result ≤ 4097) }
{
    let returned = description::byte_at(d, 9);
    if returned == 255 {
        return 5;
    }
    entry_at(table, returned)
}

// All arguments, each behind a comma, `before` being the length so far.
fn arguments_length(d: &[u8], before: usize, named: usize, table: &[u32; 64]) -> usize
    requires { (uses_refusal d.now ≡ 0) × (before ≤ 4097) × (named ≡ named_in d.now) × Lengths d.now (types_in d.now) table.now }
    ensures { result ≡ arguments_from (length_at d.now) d.now before 0 named }
{
    let mut x = before;
    for i in 0..named {
        let argument = description::argument_at(d, i);
        let entry = entry_at(table, argument);
        x = cap(x + (2 + entry));
    }
    x
}

// The length of the text, at most 4,097: 25 is over 4,096.
pub fn text_length(d: &[u8], table: &[u32; 64]) -> usize
    requires { (uses_refusal d.now ≡ 0) × Lengths d.now (types_in d.now) table.now }
    ensures { result ≡ capped (length (written_text d.now)) }
{
    let named = description::byte_at(d, 7);
    let variadic = description::variadic_in(d);
    let back = result_length(d, table);
    if named == 0 {
        return cap(back + 8 + empty_length(variadic == 1));
    }
    arguments_length(d, cap(back + 6 + end_length(variadic == 1)), named, table)
}
