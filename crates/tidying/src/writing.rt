// The tidy form of a call (request 2026-03): how long it is, and its bytes, written one after the other to a lent buffer of that length.
ghost use Rattle.std.specs.Prelude.{◌≡◌, ℕ, ◌+◌, ◌*◌, ◌<◌, ◌≤◌, length, get_or, MatchResult};
ghost use Rattle.std.proofs.Props.{props};
ghost use Rattle.description.specs.Description.{types_in, arguments_in, argument_at, member_at, Whole};
ghost use Rattle.form.specs.Reading.{refusal_of};
ghost use Rattle.tidying.specs.Call.{call_of};
ghost use Rattle.tidying.specs.Numbering.{table_of};
ghost use Rattle.tidying.specs.Tidy.{separate, start_of, return_number, tidy_of};
ghost use Rattle.tidying.specs.Equal.{Ty-set};
ghost use Rattle.tidying.specs.Ordered.{Below-prop};
ghost use Rattle.tidying.specs.Asks.{AllNumbered, Stands, Written, run_length, second_at, AskRun};

use crate::marking::MarkedTypes;
use crate::numbering::Numbering;
use description::TypeRecord;
use form::{Reason, Refusal};

// The types of a call, numbered, where their members fit: each run by itself, at most 255 members in all.
#[derive(Drop)]
pub struct Tidied<'a> {
    pub numbering: Numbering<'a>,
    pub members: usize,
    ghost all: { AllNumbered numbering.types.bytes.now numbering.numbers numbering.originals numbering.count } by { Prim.hlevel (props, Below-prop, Ty-set) },
    ghost sum: { members ≡ separate (table_of (call_of numbering.types.bytes.now)) },
    ghost few: { members ≤ 255 },
}

// The members of type k: none where it has no run.
fn run_length(d: &[u8], k: usize) -> usize
    requires { Whole d.now × (k < types_in d.now) }
    ensures { (result ≡ run_length d.now k) × (result < 65536) }
{
    match description::record_at(d, k) {
        TypeRecord::Group { count, .. } => count,
        _ => 0,
    }
}

// The members of all types of a call, each run by itself.
fn separate_members(numbering: &Numbering) -> usize
    requires { AllNumbered numbering.now.types.bytes.now numbering.now.numbers numbering.now.originals numbering.now.count }
    ensures { result ≡ separate (table_of (call_of numbering.now.types.bytes.now)) }
{
    let d = numbering.types.bytes;
    let mut sum = 0;
    for j in 0..numbering.count {
        let k = usize::from(numbering.originals[j]);
        sum += run_length(d, k);
    }
    sum
}

impl<'a> Tidied<'a> {
    // Numbers the types of a call and counts their members. More than 255 have no tidy form.
    pub fn of_call(types: MarkedTypes<'a>) -> Result<Self, Refusal>
        ensures { MatchResult result
            (λ tidied. tidied.numbering.types ≡ types.entry)
            (λ refusal. (refusal ≡ refusal_of 29) × (255 < separate (table_of (call_of types.entry.bytes.now)))) }
    {
        let numbering = Numbering::of_call(types);
        let members = separate_members(&numbering);
        if 255 < members {
            return Err(Refusal::from(Reason::TooManyMembers));
        }
        Ok(Tidied { numbering, members })
    }

    // How many bytes the tidy form has.
    pub fn length(&self) -> usize
        ensures { result ≡ length (tidy_of (call_of self.now.numbering.types.bytes.now)) }
    {
        let arguments = description::byte_at(self.numbering.types.bytes, 8);
        11 + 4 * self.numbering.count + self.members + arguments
    }

    // The number of the returned type, 255 for void.
    fn return_number(&self) -> u8
        ensures { result ≡ return_number (table_of (call_of self.now.numbering.types.bytes.now)) (call_of self.now.numbering.types.bytes.now).returns }
    {
        let returns = description::byte_at(self.numbering.types.bytes, 9);
        if returns == 255 {
            return 255;
        }
        self.numbering.numbers[returns]
    }

    // The header.
    fn head(&self) -> [u8; 11]
        ensures { (length result ≡ 11) × Stands (tidy_of (call_of self.now.numbering.types.bytes.now)) result 0 }
    {
        let d = self.numbering.types.bytes;
        let returns = self.return_number();
        [
            b'K',
            b'C',
            b'B',
            1,
            0,
            self.numbering.count as u8,
            d[6],
            d[7],
            d[8],
            returns,
            self.members as u8,
        ]
    }

    // The second byte of the record of type k, whose run, if it has one, begins at place `start`.
    fn second_byte(&self, k: usize, start: usize) -> u8
        requires { (k < types_in self.now.numbering.types.bytes.now) × (start < 256) }
        ensures { result ≡ second_at self.now.numbering.types.bytes.now self.now.numbering.numbers k start }
    {
        match description::record_at(self.numbering.types.bytes, k) {
            TypeRecord::Basic { code, .. } => code as u8,
            TypeRecord::Array { element, .. } => self.numbering.numbers[element],
            TypeRecord::Group { .. } => start as u8,
        }
    }

    // The record of number j, whose run, if it has one, begins at place `start`.
    fn record(&self, j: usize, start: usize) -> [u8; 4]
        requires { (j < self.now.numbering.count) × (start ≡ start_of (table_of (call_of self.now.numbering.types.bytes.now)) j) }
        ensures { (length result ≡ 4) × Stands (tidy_of (call_of self.now.numbering.types.bytes.now)) result (11 + 4 * j) }
    {
        let d = self.numbering.types.bytes;
        let k = usize::from(self.numbering.originals[j]);
        let kind = description::kind_at(d, k);
        let count = description::count_at(d, k);
        let second = self.second_byte(k, start);
        // The byte of the record itself.
        [kind as u8, second, (count % 256) as u8, (count / 256) as u8]
    }

    // The records of all types.
    fn write_records(&self, out: &mut [u8])
        requires { Written (tidy_of (call_of self.now.numbering.types.bytes.now)) 11 out.old }
        ensures { Written (tidy_of (call_of self.now.numbering.types.bytes.now)) (11 + 4 * self.now.numbering.count) out.new }
    {
        let d = self.numbering.types.bytes;
        let mut start = 0;
        for j in 0..self.numbering.count {
            let record = self.record(j, start);
            let from = 11 + 4 * j;
            out[from..from + 4].copy_from_slice(&record);
            start += run_length(d, usize::from(self.numbering.originals[j]));
        }
    }

    // The numbers of the members from place `first` on.
    fn write_run(&self, first: usize, run: &mut [u8])
        requires { AskRun self.now.numbering.types.bytes.now first (length run.old) }
        ensures { (length run.new ≡ length run.old)
            × ((i : ℕ) → i < length run.old → get_or run.new i 0 ≡ get_or self.now.numbering.numbers (member_at self.now.numbering.types.bytes.now (first + i)) 0) }
    {
        let d = self.numbering.types.bytes;
        for (i, number) in run.iter_mut().enumerate() {
            *number = self.numbering.numbers[description::member_at(d, first + i)];
        }
    }

    // The runs of all types, one after the other, behind the records.
    fn write_runs(&self, out: &mut [u8])
        requires { Written (tidy_of (call_of self.now.numbering.types.bytes.now)) (11 + 4 * self.now.numbering.count) out.old }
        ensures { Written (tidy_of (call_of self.now.numbering.types.bytes.now)) (11 + 4 * self.now.numbering.count + self.now.members) out.new }
    {
        let d = self.numbering.types.bytes;
        let mut from = 11 + 4 * self.numbering.count;
        for j in 0..self.numbering.count {
            let k = usize::from(self.numbering.originals[j]);
            let count = run_length(d, k);
            self.write_run(description::a_at(d, k), &mut out[from..from + count]);
            from += count;
        }
    }

    // The numbers of the arguments.
    // The loop of write_run, over another part of the description: with a closure for the place it would be no shorter.
    fn write_arguments(&self, arguments: &mut [u8])
        requires { length arguments.old ≡ arguments_in self.now.numbering.types.bytes.now }
        ensures { (length arguments.new ≡ length arguments.old)
            × ((i : ℕ) → i < length arguments.old → get_or arguments.new i 0 ≡ get_or self.now.numbering.numbers (argument_at self.now.numbering.types.bytes.now i) 0) }
    {
        let d = self.numbering.types.bytes;
        for (i, number) in arguments.iter_mut().enumerate() {
            *number = self.numbering.numbers[description::argument_at(d, i)];
        }
    }

    // The tidy form, to a buffer of its length.
    pub fn write(&self, out: &mut [u8])
        requires { length out.old ≡ length (tidy_of (call_of self.now.numbering.types.bytes.now)) }
        ensures { out.new ≡ tidy_of (call_of self.now.numbering.types.bytes.now) }
    {
        let head = self.head();
        out[..11].copy_from_slice(&head);
        self.write_records(out);
        self.write_runs(out);
        let from = 11 + 4 * self.numbering.count + self.members;
        self.write_arguments(&mut out[from..]);
    }
}
