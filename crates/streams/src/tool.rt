// A command that reads one file or the standard input: its arguments, what it reads, and what it says where something cannot be read or written.
// Answers go to standard output, all else to standard error.
ghost use Rattle.std.specs.Prelude.{◌≤◌, length, IfOk};

use std::env::{Env, FillError};
use std::fs::File;
use std::io;
use std::io::{Cursor, Error, Read, Write};

// The system's numbers of the errors: a name that is too long, and bytes that are no text.
const ENAMETOOLONG: i32 = 36;

const EILSEQ: i32 = 84;

// Reads until the space is full or the input ends, and answers how many bytes that are, or why a read fails. Each read that goes on brings a byte,
// so that as many reads as the space has bytes are enough. Where the space is full a read of no bytes answers 0, as the end does.
pub fn read_input(input: &mut impl Read, space: &mut [u8]) -> io::Result<usize>
    ensures { IfOk result (λ n. n ≤ length space.new) }
{
    let mut done = 0;
    for _ in 0..space.len() {
        let got = input.read(&mut space[done..])?;
        if got == 0 {
            return Ok(done);
        }
        done += got;
    }
    Ok(done)
}

// How many bytes of an error's text are the system's: all before the number, which std writes behind them. Zeros follow the text.
fn reason_length(text: &[u8]) -> usize
    ensures { result ≤ length text.now }
{
    for i in 0..text.len() {
        if text[i] == 0 || text[i..].starts_with(b" (os error ") {
            return i;
        }
    }
    text.len()
}

fn tell(rt: &HostRuntime, text: &[u8]) {
    let _ = Print::write_all(&rt.stderr(), text);
}

fn tell_reason(rt: &HostRuntime, error: Error) {
    let mut text = [0u8; 320];
    let mut room = Cursor::new(text.as_mut_slice());
    let _ = write!(room, "{error}");
    let n = reason_length(&text);
    tell(rt, &text[..n]);
}

fn has_argument(rt: &HostRuntime, i: usize) -> bool {
    let mut none = [0u8; 1];
    !matches!(rt.arg(i, &mut none), Err(FillError::NotPresent))
}

// A command by its name, the lines that --version and --help print, and that of a wrong use.
#[derive(Clone, Copy)]
pub struct Tool {
    pub name: &'static str,
    pub version: &'static str,
    pub help: &'static str,
    pub usage: &'static str,
}

impl Tool {
    fn tell_failure(self, rt: &HostRuntime, what: &[u8], name: &[u8], error: Error) {
        tell(rt, self.name.as_bytes());
        tell(rt, what);
        tell(rt, name);
        tell(rt, b": ");
        tell_reason(rt, error);
        tell(rt, b"\n");
    }

    fn cannot_read(self, rt: &HostRuntime, name: &[u8], error: Error) {
        self.tell_failure(rt, b": cannot read ", name, error);
    }

    fn refuse_usage(self, rt: &HostRuntime) {
        tell(rt, self.usage.as_bytes());
    }

    // Writes to standard output, and tells where that fails.
    pub fn print(self, rt: &HostRuntime, text: &[u8]) {
        if let Err(error) = Print::write_all(rt, text) {
            self.tell_failure(rt, b": cannot write ", b"standard output", error);
        }
    }

    // Reads the input, and answers it.
    fn answer<F: FnOnce(&HostRuntime, &[u8])>(
        self,
        rt: &HostRuntime,
        input: &mut impl Read,
        name: &[u8],
        answer: F,
    )
        requires { F.IsAlwaysCallable answer }
    {
        // No description has more than 586 bytes: with one more, what stands behind one is seen, and is refused.
        let mut space = [0u8; 587];
        match read_input(input, &mut space) {
            Ok(n) => answer(rt, &space[..n]),
            Err(error) => self.cannot_read(rt, name, error),
        }
    }

    // A path of std is UTF-8 text.
    fn answer_file<F: FnOnce(&HostRuntime, &[u8])>(self, rt: &HostRuntime, name: &[u8], answer: F)
        requires { F.IsAlwaysCallable answer }
    {
        let Ok(path) = str::from_utf8(name) else {
            self.cannot_read(rt, name, Error::from_raw_os_error(EILSEQ));
            return;
        };
        match File::open(rt, path) {
            Ok(mut file) => self.answer(rt, &mut file, name, answer),
            Err(error) => self.cannot_read(rt, name, error),
        }
    }

    fn answer_standard_input<F: FnOnce(&HostRuntime, &[u8])>(self, rt: &HostRuntime, answer: F)
        requires { F.IsAlwaysCallable answer }
    {
        self.answer(rt, &mut rt.stdin(), b"standard input", answer);
    }

    // What one argument asks for. A file whose name begins with - is named by its folder too, as ./-x.
    fn obey<F: FnOnce(&HostRuntime, &[u8])>(self, rt: &HostRuntime, argument: &[u8], answer: F)
        requires { F.IsAlwaysCallable answer }
    {
        match argument {
            b"-" => self.answer_standard_input(rt, answer),
            b"--help" => self.print(rt, self.help.as_bytes()),
            b"--version" => self.print(rt, self.version.as_bytes()),
            [b'-', ..] => self.refuse_usage(rt),
            _ => self.answer_file(rt, argument, answer),
        }
    }

    // Answers what the command line asks for: a file, the standard input, --help or --version.
    pub fn run<F: FnOnce(&HostRuntime, &[u8])>(self, rt: &HostRuntime, answer: F)
        requires { F.IsAlwaysCallable answer }
    {
        // Its own name is the first argument.
        if has_argument(rt, 2) {
            self.refuse_usage(rt);
            return;
        }
        let mut argument = [0u8; 4096];
        match rt.arg(1, &mut argument) {
            Ok(length) => self.obey(rt, &argument[..length], answer),
            Err(FillError::NotPresent) => self.answer_standard_input(rt, answer),
            Err(FillError::TooLong) => {
                self.cannot_read(rt, b"the file", Error::from_raw_os_error(ENAMETOOLONG))
            }
        }
    }
}
