// The writer, behind 1 to 10 and 29 (request 2026-08): 25 is decided before anything is written.
ghost use Rattle.std.specs.Prelude.{◌≡◌, length};
ghost use Rattle.uses.specs.Uses.{uses_refusal};
ghost use Rattle.declaring.specs.Length.{capped};
ghost use Rattle.declaring.specs.Named.{written_text};
ghost use Rattle.writing.specs.After.{text_after};

use crate::{declaration_text, text_lengths};
use listing::Text;

// Writes the declaration of the named part, where it has at most 4,096 bytes; answers its length, or 4,097. The length comes first, then the text.
pub fn write_declaration(d: &[u8], out: &mut [u8; 8192]) -> usize
    requires { uses_refusal d.now ≡ 0 }
    ensures { (result ≡ capped (length (written_text d.now))) × (out.new ≡ text_after d.now out.old) }
{
    let mut table = [0u32; 64];
    text_lengths::fill_lengths(d, &mut table);
    let many = text_lengths::text_length(d, &table);
    if 4096 < many {
        return many;
    }
    let mut text = Text { out, at: 0 };
    declaration_text::put_declaration(d, &mut text);
    text.at
}
