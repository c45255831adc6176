// A refusal as text: `refused 8`, or `refused 6 type 12`. The number decides whether a type is named, since the type can be 0.
use crate::Refusal;
use std::fmt;

impl fmt::Display for Refusal {
    fn fmt<W: fmt::Write>(&self, f: &mut fmt::Formatter<W>) -> fmt::Result {
        match self.number {
            6 | 7 => write!(f, "refused {} type {}", self.number, self.ty),
            number => write!(f, "refused {number}"),
        }
    }
}
