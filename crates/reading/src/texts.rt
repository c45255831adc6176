// Reading a text byte by byte: after each of them, whether some text fits behind it.
// Text and the token's bounds go side by side here, since the byte behind the token is looked at too.
ghost use Rattle.std.specs.Prelude.{◌≡◌, ◌&&◌, [], ◌+◌, ◌-◌, ◌*◌, ◌≤◌, ◌<◌, length, get_or};
ghost use Rattle.std.proofs.Math.Seq.{slice};
ghost use Rattle.grammar.specs.Grammar.{is_number, is_name};
ghost use Rattle.grammar.specs.Machine.{live, feed, begins, possible, some_fixed, is_ended, close, flush, step, at, read_text};
ghost use Rattle.grammar.specs.Prototype.{declarations, prototype, types, spellings};
ghost use Rattle.reading.specs.Code.{tops, LeadsTo, Holds, answer_of, reading_of};

use crate::symbols::Symbols;
use crate::tables::Class;
use crate::{ReadError, tables, tokens};

// Whether these bytes begin the fixed token number i, and this may come next.
fn fixed_fits(symbols: &Symbols, token: &[u8], i: usize) -> bool
    requires { i < 45 }
    ensures { result ≡ (begins token.now (get_or spellings i []) && live (feed declarations (tops symbols.now.cells symbols.now.depth) (i + 3))) }
{
    tokens::begins_token(token, i) && symbols.may_come(i + 3)
}

fn some_fixed(symbols: &Symbols, token: &[u8]) -> bool
    ensures { result ≡ some_fixed declarations (tops symbols.now.cells symbols.now.depth) spellings 3 token.now }
{
    for i in 0..45 {
        if fixed_fits(symbols, token, i) {
            return true;
        }
    }
    false
}

// Whether they are a number, as was found out, and one may come next.
fn number_fits(symbols: &Symbols, number: bool) -> bool
    ensures { result ≡ (number && live (feed declarations (tops symbols.now.cells symbols.now.depth) 0)) }
{
    number && symbols.may_come(0)
}

// Whether they begin a name, and one may come next.
fn name_fits(symbols: &Symbols, token: &[u8]) -> bool
    requires { 0 < length token.now }
    ensures { result ≡ (is_name token.now && live (feed declarations (tops symbols.now.cells symbols.now.depth) 1)) }
{
    tables::has_class(token[0], Class::Letter) && symbols.may_come(1)
}

// Whether they begin a token that may come next, where it is told whether they are a number.
fn could(symbols: &Symbols, token: &[u8], number: bool) -> bool
    requires { (0 < length token.now) × (number ≡ is_number token.now) }
    ensures { result ≡ possible declarations (tops symbols.now.cells symbols.now.depth) token.now }
{
    number_fits(symbols, number) || name_fits(symbols, token) || some_fixed(symbols, token)
}

// The token before i is whole: whether it may come, and then the symbols are those behind it.
fn end_token(symbols: &mut Symbols, text: &[u8], start: usize, i: usize) -> bool
    requires { (symbols.old.depth + 5 ≤ 16400) × (start ≤ i) × (i ≤ length text.now) }
    ensures { LeadsTo (flush declarations (slice start i text.now) (tops symbols.old.cells symbols.old.depth) []) result symbols.new.cells symbols.new.depth
        × (symbols.new.depth ≤ symbols.old.depth + 4 * (i - start)) }
{
    start == i || symbols.lead(tokens::kind_of(&text[start..i]))
}

// One byte more, where it is told whether the token before it is a number so far: where the token begins that is being read then, if some text fits behind it.
fn read_byte(
    symbols: &mut Symbols,
    text: &[u8],
    start: usize,
    i: usize,
    number: bool,
) -> Option<usize>
    requires { (symbols.old.depth ≤ 6 + 4 * start) × (start ≤ i) × (i < length text.now) × (length text.now ≤ 4096) × (number ≡ is_number (slice start i text.now)) }
    ensures { Holds text.now (i + 1) (step declarations (at (slice start i text.now) (tops symbols.old.cells symbols.old.depth) []) (get_or text.now i 0)) result symbols.new.cells symbols.new.depth }
{
    if tokens::joins_on(text, start, i) {
        let more = tokens::number_on(text, start, i, number);
        return could(symbols, &text[start..i + 1], more).then_some(start);
    }
    if !end_token(symbols, text, start, i) {
        return None;
    }
    if tables::has_class(text[i], Class::Blank) {
        return Some(i + 1);
    }
    let digit = tokens::number_on(text, i, i, false);
    could(symbols, &text[i..i + 1], digit).then_some(i)
}

// The end of the text.
fn read_end(symbols: &mut Symbols, text: &[u8], start: usize) -> bool
    requires { (symbols.old.depth ≤ 6 + 4 * start) × (start ≤ length text.now) × (length text.now ≤ 4096) }
    ensures { result ≡ is_ended (close declarations (at (slice start (length text.now) text.now) (tops symbols.old.cells symbols.old.depth) [])) }
{
    end_token(symbols, text, start, text.len()) && symbols.may_end()
}

// Reads a text of at most 4,096 bytes, of the symbols that are to come.
fn read_on(text: &[u8], symbols: &mut Symbols) -> Result<(), ReadError>
    requires { (length text.now ≤ 4096) × (symbols.old.depth ≤ 6) }
    ensures { result ≡ answer_of (read_text declarations (tops symbols.old.cells symbols.old.depth) text.now) }
{
    let mut start = 0;
    let mut number = false;
    for i in 0..text.len() {
        let Some(next) = read_byte(symbols, text, start, i, number) else {
            return Err(ReadError::RefusedAt(i));
        };
        number = tokens::number_by(text, start, i, next, number);
        start = next;
    }
    if read_end(symbols, text, start) {
        Ok(())
    } else {
        Err(ReadError::RefusedAt(text.len()))
    }
}

// Reads a prototype.
pub fn read_prototype(text: &[u8]) -> Result<(), ReadError>
    ensures { result ≡ reading_of prototype text.now }
{
    if 4096 < text.len() {
        return Err(ReadError::TooLong);
    }
    let mut symbols = Symbols {
        cells: [0; 16400],
        depth: 0,
    };
    symbols.start_prototype();
    read_on(text, &mut symbols)
}

// Reads the types of further arguments.
pub fn read_types(text: &[u8]) -> Result<(), ReadError>
    ensures { result ≡ reading_of types text.now }
{
    if 4096 < text.len() {
        return Err(ReadError::TooLong);
    }
    let mut symbols = Symbols {
        cells: [0; 16400],
        depth: 0,
    };
    symbols.start_types();
    read_on(text, &mut symbols)
}
