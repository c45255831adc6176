// The bytes of a token: which kind it is of, which fixed token it begins, and whether a byte joins it.
// Where the byte behind a token is looked at too, the text and the token's bounds are parameters; elsewhere the token is a slice.
ghost use Rattle.std.specs.Prelude.{◌≡◌, ◌||◌, [], ◌+◌, ◌≤◌, ◌<◌, length, get_or};
ghost use Rattle.std.proofs.Math.Seq.{slice};
ghost use Rattle.grammar.specs.Tokens.{class_of, is_letter, is_digit, joins};
ghost use Rattle.grammar.specs.Grammar.{kind_of, is_number, same};
ghost use Rattle.grammar.specs.Machine.{begins, joins_run};
ghost use Rattle.grammar.specs.Prototype.{spellings};

use crate::tables;
use crate::tables::Class;

// Whether these bytes begin the fixed token number i.
pub fn begins_token(token: &[u8], i: usize) -> bool
    requires { i < 45 }
    ensures { result ≡ begins token.now (get_or spellings i []) }
{
    if tables::spelling_length(i) < token.len() {
        return false;
    }
    for j in 0..token.len() {
        if tables::spelling_byte(i, j) != token[j] {
            return false;
        }
    }
    true
}

// Whether they are that token.
fn is_token(token: &[u8], i: usize) -> bool
    requires { i < 45 }
    ensures { result ≡ same (get_or spellings i []) token.now }
{
    tables::spelling_length(i) == token.len() && begins_token(token, i)
}

// Whether they are a number: digits, with no zero in front of others.
pub fn is_number(token: &[u8]) -> bool
    requires { 0 < length token.now }
    ensures { result ≡ is_number token.now }
{
    let first = token[0];
    if !tables::has_class(first, Class::Digit) {
        return false;
    }
    for j in 1..token.len() {
        if !tables::has_class(token[j], Class::Digit) {
            return false;
        }
    }
    first != b'0' || token.len() == 1
}

// Whether the token that begins at start is a number with the byte at i too, where it is told whether it is one before that byte: so no token is looked through for each of its bytes.
pub fn number_on(text: &[u8], start: usize, i: usize, number: bool) -> bool
    requires { (start ≤ i) × (i < length text.now) × (number ≡ is_number (slice start i text.now)) }
    ensures { result ≡ is_number (slice start (i + 1) text.now) }
{
    if !tables::has_class(text[i], Class::Digit) {
        return false;
    }
    start == i || (number && text[start] != b'0')
}

// The same where the token begins at `next` behind that byte.
pub fn number_by(text: &[u8], start: usize, i: usize, next: usize, number: bool) -> bool
    requires { (start ≤ i) × (i < length text.now) × (number ≡ is_number (slice start i text.now)) }
    ensures { result ≡ is_number (slice next (i + 1) text.now) }
{
    if next == start {
        return number_on(text, start, i, number);
    }
    next <= i && is_number(&text[next..i + 1])
}

// The kind of the token that they are. A number: the grammar's `rule` and `kind_of` have kinds by number, and its tables are indexed by it.
pub fn kind_of(token: &[u8]) -> usize
    requires { 0 < length token.now }
    ensures { (result ≡ kind_of spellings token.now) × (result < 48) }
{
    if is_number(token) {
        return 0;
    }
    for i in 0..45 {
        if is_token(token, i) {
            return i + 3;
        }
    }
    if tables::has_class(token[0], Class::Letter) {
        1
    } else {
        2
    }
}

// Whether two bytes, one behind the other, are of one token.
fn joined(a: u8, b: u8) -> bool
    ensures { result ≡ joins (class_of a) (class_of b) }
{
    if tables::has_class(a, Class::Dot) {
        tables::has_class(b, Class::Dot)
    } else {
        wordy(a) && wordy(b)
    }
}

// Whether a byte is a letter or a digit.
fn wordy(b: u8) -> bool
    ensures { result ≡ (is_letter (class_of b) || is_digit (class_of b)) }
{
    tables::has_class(b, Class::Letter) || tables::has_class(b, Class::Digit)
}

// Whether the byte at i joins the token that begins at start.
pub fn joins_on(text: &[u8], start: usize, i: usize) -> bool
    requires { (start ≤ i) × (i < length text.now) }
    ensures { result ≡ joins_run (slice start i text.now) (get_or text.now i 0) }
{
    start < i && joined(text[start], text[i])
}
