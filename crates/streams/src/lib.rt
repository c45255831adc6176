// What the programs read and write, over std's standard streams, in memory of fixed size. A read that fails ends the input; a write that fails is
// left out (`let _ =`), and a program reads and writes on behind it. Nothing is kept back between two calls.
#![tactic(auto)]

pub mod tool; // a command that reads one file or the standard input

ghost use Rattle.std.specs.Prelude.{◌≤◌, length, IfSome};

use form::Refusal;
use std::io::Read;
use std::{fmt, io};

// More records than any file of vectors has, so that a program ends whatever it reads.
pub const RECORDS: usize = 100000;

// Bytes in base 16, two digits each, behind a blank; nothing where there are none.
#[derive(Clone, Copy)]
pub struct Hex<'a>(pub &'a [u8]);

impl fmt::Display for Hex<'_> {
    fn fmt<W: fmt::Write>(&self, f: &mut fmt::Formatter<W>) -> fmt::Result {
        if !self.0.is_empty() {
            write!(f, " ")?;
        }
        for byte in self.0 {
            write!(f, "{byte:02x}")?;
        }
        Ok(())
    }
}

// A line with the number, and the type that breaks the rule of 6 or 7, which is 0 for the others.
pub fn print_refusal(rt: &impl Print, refusal: Refusal) -> io::Result<()> {
    println!(rt; "refused {} {}", refusal.number, refusal.ty)
}

// Some bytes of the standard input, at the start of buf: how many they are, 0 at the end of the input or where the read fails.
fn read_some(rt: &impl Input, buf: &mut [u8]) -> usize
    ensures { result ≤ length buf.new }
{
    rt.reader().read(buf).unwrap_or(0)
}

// Reads until buf is full, the input ends or a read fails, and answers how many bytes it put at the start of buf.
// A `while`, since how far each read goes is what it answers.
pub fn read_full(rt: &impl Input, buf: &mut [u8]) -> usize
    ensures { result ≤ length buf.new }
{
    let mut done = 0;
    while done < buf.len() {
        let n = read_some(rt, &mut buf[done..]);
        if n == 0 {
            break;
        }
        done += n;
    }
    done
}

// The next byte, 0 at the end of the input.
pub fn read_byte(rt: &impl Input) -> u8 {
    let mut one = [0u8; 1];
    read_full(rt, &mut one);
    one[0]
}

// The length of a part, in two bytes before it; none at the end of the input.
pub fn read_length(rt: &impl Input) -> Option<usize> {
    let mut two = [0u8; 2];
    if read_full(rt, &mut two) < 2 {
        return None;
    }
    Some(usize::from(u16::from_le_bytes(two)))
}

// A part with its length before it, into the start of space: how many bytes that is; none where there are not so many, or no room for them.
pub fn read_part(rt: &impl Input, space: &mut [u8]) -> Option<usize>
    ensures { IfSome result (λ n. n ≤ length space.new) }
{
    let n = read_length(rt)?;
    if space.len() < n || read_full(rt, &mut space[..n]) < n {
        return None;
    }
    Some(n)
}

// How many bytes are asked for, none where there is no room for so many.
pub fn read_room(rt: &impl Input, room: usize) -> usize
    ensures { result ≤ room }
{
    read_length(rt).filter(|&n| n <= room).unwrap_or(0)
}
