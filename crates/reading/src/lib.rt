// Reading a C prototype (document 02, request 2026-08) by its grammar: accepted, or the place of the first byte after which no text fits it.
#![tactic(auto)]

pub use texts::{read_prototype, read_types};

mod tables; // the grammar, as tables of bytes
mod tokens; // the bytes of a token
mod symbols; // the symbols that are still to come
mod texts; // a text, byte by byte

// Why a text is refused: 25, more than 4,096 bytes; 26, and the place where no text fits any more.
#[derive(Clone, Copy, Debug, PartialEq, Eq)]
pub enum ReadError {
    TooLong,
    RefusedAt(usize),
}
