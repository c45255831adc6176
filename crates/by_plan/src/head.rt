// The numbers of a plan: those before its lists, what they say of the hidden address, and the lists (plans/specs/Plans.antt).
ghost use Rattle.std.specs.Prelude.{◌≡◌, cond, ◌≤◌, ◌<◌, length, get_or, IfOk, IfErr};
ghost use Rattle.form.specs.Reading.{refusal_of};
ghost use Rattle.images.specs.Words.{address_in};
ghost use Rattle.plans.specs.Returned.{return_moves_in};
ghost use Rattle.plans.specs.Plans.{fours_at, parts_at, bools_at, end_of, image_in, used_by, wide_address};
ghost use Rattle.by_plan.specs.Lists.{AreLists, triples_of};

use form::{Reason, Refusal};

// Numbers that have those before the lists.
#[derive(Clone, Copy)]
pub struct Plan<'a> {
    pub numbers: &'a [u16],
    ghost headed: { 16 ≤ length numbers.now },
}

// The lists, each by itself.
#[derive(Clone, Copy)]
pub struct Lists<'a> {
    pub eights: &'a [u16],
    pub fours: &'a [u16],
    pub parts: &'a [u16],
    pub bools: &'a [u16],
}

impl<'a> Plan<'a> {
    // The head of any numbers, or 30 where there are too few.
    pub fn new(numbers: &'a [u16]) -> Result<Plan<'a>, Refusal>
        ensures headed { IfOk result (λ plan. plan.numbers.now ≡ numbers.now) }
        ensures short { IfErr result (λ refusal. (refusal ≡ refusal_of 30) × (length numbers.now < 16)) }
    {
        if numbers.len() < 16 {
            return Err(Refusal::from(Reason::NoPlan));
        }
        Ok(Plan { numbers })
    }

    // One of the numbers before the lists.
    pub fn at(self, i: usize) -> usize
        requires { i < 16 }
        ensures { (result ≡ get_or self.entry.numbers.now i 0) × (result < 65536) }
    {
        usize::from(self.numbers[i])
    }

    // Where the fours, the parts and the bools begin, and where all end.
    fn fours_at(self) -> usize
        ensures { (result ≡ fours_at self.entry.numbers.now) × (result ≤ 131086) }
    {
        16 + 2 * self.at(4)
    }

    fn parts_at(self) -> usize
        ensures { (result ≡ parts_at self.entry.numbers.now) × (result ≤ 262156) }
    {
        self.fours_at() + 2 * self.at(5)
    }

    fn bools_at(self) -> usize
        ensures { (result ≡ bools_at self.entry.numbers.now) × (result ≤ 458761) }
    {
        self.parts_at() + 3 * self.at(6)
    }

    pub fn end(self) -> usize
        ensures { result ≡ end_of self.entry.numbers.now }
    {
        self.bools_at() + self.at(7)
    }

    // The bytes of all images.
    pub fn image(self) -> usize
        ensures { result ≡ image_in self.entry.numbers.now }
    {
        304 + self.at(1)
    }

    pub fn uses_address(self) -> bool
        ensures { result ≡ used_by self.entry.numbers.now }
    {
        self.at(3) != 0
    }

    // The hidden address has to have 32 bits, and has more.
    pub fn wide_address(self, hidden: u64) -> bool
        ensures { result ≡ wide_address self.entry.numbers.now hidden }
    {
        self.at(3) == 2 && 4294967296 <= hidden
    }

    // The hidden address in the first register of an image, 0 where none is used.
    pub fn address_in(self, image: &[u8]) -> u64
        requires { 8 ≤ length image.now }
        ensures { result ≡ cond (used_by self.entry.numbers.now) (address_in image.now) 0 }
    {
        if self.uses_address() {
            images::address_in(image)
        } else {
            0
        }
    }

    // The two moves of the returned value.
    pub fn returned(self) -> &'a [u16]
        ensures { triples_of result.now ≡ return_moves_in self.entry.numbers.now }
    {
        &self.numbers[10..16]
    }

    // The lists, all of which are there.
    pub fn lists(self) -> Lists<'a>
        requires { end_of self.numbers.now ≤ length self.numbers.now }
        ensures { AreLists self.entry.numbers.now result }
    {
        let fours = self.fours_at();
        let parts = self.parts_at();
        let bools = self.bools_at();
        Lists {
            eights: &self.numbers[16..fours],
            fours: &self.numbers[fours..parts],
            parts: &self.numbers[parts..bools],
            bools: &self.numbers[bools..self.end()],
        }
    }
}
