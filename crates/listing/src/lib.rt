// The lister's text (document 01, "The lister"; document 02, request 2026-07), written into a lent buffer. A record's line has at most 69 bytes and the three
// other lines together 124, so that with 64 records no listing is over 4,540.
#![tactic(auto)]

pub use texts::Text;

mod texts; // text written into a lent buffer, word after word
mod place_writing; // the words of a register and of a place, written
mod line_writing; // each line, written

ghost use Rattle.std.specs.Prelude.{◌≡◌, ◌++◌, ◌+◌, ◌≤◌, length, drop};
ghost use Rattle.description.specs.Description.{arguments_in};
ghost use Rattle.listing.specs.Puts.{Puts};
ghost use Rattle.listing.specs.Listing.{record_lines, laid_text, listing};
ghost use Rattle.listing.specs.Asks.{Accepted};

use layout::{Described, Laying, Layout};

// A line for each argument.
fn put_records(described: Described, text: &mut Text, layout: Layout)
    requires { (text.old.at + 4416 ≤ 8192) × Accepted described.bytes.now layout }
    ensures { Puts 4416 text.old text.new (record_lines described.entry.bytes.now 0 (arguments_in described.entry.bytes.now)) }
{
    let mut laying = Laying::fresh(layout.hidden);
    for i in 0..described.arguments() {
        let placement = described.place_argument(i, &mut laying);
        line_writing::put_record(text, i, placement);
    }
}

// The lines of an accepted description.
fn put_laid(described: Described, text: &mut Text, layout: Layout)
    requires { (text.old.at + 4540 ≤ 8192) × Accepted described.bytes.now layout }
    ensures { Puts 4540 text.old text.new (laid_text described.entry.bytes.now layout) }
{
    let all = described.arguments();
    let first = described.named();
    let k = description::byte_at(described.bytes, 9);
    let variadic = description::variadic_in(described.bytes);
    line_writing::put_head(text, all, first, layout);
    put_records(described, text, layout);
    line_writing::put_return(text, k, layout.returns);
    line_writing::put_walk(text, variadic, layout.named);
}

// The lines of any bytes.
fn put_listing(d: &[u8], text: &mut Text)
    requires { text.old.at + 4540 ≤ 8192 }
    ensures { Puts 4540 text.old text.new (listing d.now) }
{
    let mut table = [0u32; 64];
    match layout::layout_with(d, &mut table) {
        Ok(layout) => {
            let described = Described {
                bytes: d,
                table: &table,
            };
            put_laid(described, text, layout);
        }
        Err(refusal) => line_writing::put_refused(text, refusal),
    }
}

// The listing of any bytes, at the start of `out`: all behind it stays. The answer is its length.
pub fn write_listing(d: &[u8], out: &mut [u8; 8192]) -> usize
    ensures { (result ≡ length (listing d.now)) × (result ≤ 4540)
        × (out.new ≡ listing d.now ++ drop (length (listing d.now)) out.old) }
{
    let mut text = Text { out, at: 0 };
    put_listing(d, &mut text);
    text.at
}
