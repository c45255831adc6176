// A description's named part written as a C declaration into a lent buffer (request 2026-08).
ghost use Rattle.std.specs.Prelude.{◌≡◌, ◌+◌, ◌-◌, ◌≤◌, ◌<◌, length};
ghost use Rattle.description.specs.Description.{named_in};
ghost use Rattle.uses.specs.Uses.{uses_refusal};
ghost use Rattle.listing.specs.Puts.{Puts};
ghost use Rattle.declaring.specs.Named.{written_text};
ghost use Rattle.writing.specs.Parts.{result_text, further_text, parameters_text, end_text, empty_text};

use crate::type_text;
use listing::Text;

// The result's type, or void.
fn put_result(d: &[u8], text: &mut Text)
    requires { (uses_refusal d.now ≡ 0) × (text.old.at + length (result_text d.now) ≤ 8192) }
    ensures { Puts (length (result_text d.now)) text.old text.new (result_text d.now) }
{
    let returned = description::byte_at(d, 9);
    if returned == 255 {
        text.put(b"void ");
    } else {
        type_text::put_type(d, returned, text);
    }
}

// Behind the last argument.
fn put_end(text: &mut Text, variadic: bool)
    requires { text.old.at + length (end_text variadic) ≤ 8192 }
    ensures { Puts (length (end_text variadic)) text.old text.new (end_text variadic) }
{
    if variadic {
        text.put(b", ... ");
    }
}

// Where there is no argument.
fn put_empty(text: &mut Text, variadic: bool)
    requires { text.old.at + length (empty_text variadic) ≤ 8192 }
    ensures { Puts (length (empty_text variadic)) text.old text.new (empty_text variadic) }
{
    if variadic {
        text.put(b"... ");
    } else {
        text.put(b"void ");
    }
}

// The arguments behind the first.
fn put_further(d: &[u8], text: &mut Text)
    requires { (uses_refusal d.now ≡ 0) × (1 ≤ named_in d.now) × (text.old.at + length (further_text d.now 1 (named_in d.now - 1)) ≤ 8192) }
    ensures { Puts (length (further_text d.now 1 (named_in d.now - 1))) text.old text.new (further_text d.now 1 (named_in d.now - 1)) }
{
    let named = description::byte_at(d, 7);
    let variadic = description::variadic_in(d);
    for i in 1..named {
        let argument = description::argument_at(d, i);
        text.put(b", ");
        type_text::put_type(d, argument, text);
    }
    put_end(text, variadic == 1);
}

// All parameters.
fn put_parameters(d: &[u8], text: &mut Text)
    requires { (uses_refusal d.now ≡ 0) × (text.old.at + length (parameters_text d.now) ≤ 8192) }
    ensures { Puts (length (parameters_text d.now)) text.old text.new (parameters_text d.now) }
{
    let named = description::byte_at(d, 7);
    if named == 0 {
        let variadic = description::variadic_in(d);
        put_empty(text, variadic == 1);
    } else {
        let first = description::argument_at(d, 0);
        type_text::put_type(d, first, text);
        put_further(d, text);
    }
}

// The declaration.
pub fn put_declaration(d: &[u8], text: &mut Text)
    requires { (uses_refusal d.now ≡ 0) × (text.old.at + length (written_text d.now) ≤ 8192) }
    ensures { Puts (length (written_text d.now)) text.old text.new (written_text d.now) }
{
    put_result(d, text);
    text.put(b"f ( ");
    put_parameters(d, text);
    text.put(b") ; ");
}
