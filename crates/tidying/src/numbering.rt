// The types of a description numbered for its tidy form (request 2026-03): equal ones once, as each is first completed. Each type
// is completed once, so that a type that is made of others in many ways is not walked through in as many.
ghost use Rattle.std.specs.Prelude.{◌≡◌, ℕ, ◌+◌, ◌<◌, get_or, eqb, MatchOption};
ghost use Rattle.std.proofs.Props.{props};
ghost use Rattle.description.specs.Description.{types_in, arguments_in, argument_at, return_in};
ghost use Rattle.form.specs.Search.{first_from};
ghost use Rattle.types.specs.Decode.{ty_at, tys_from};
ghost use Rattle.tidying.specs.Same.{same_ty, same_tys};
ghost use Rattle.tidying.specs.Call.{trees_from, returned_by};
ghost use Rattle.tidying.specs.Numbering.{index_of, completed, reached, reached_by, reached_from};
ghost use Rattle.tidying.specs.Ordered.{Below-prop};
ghost use Rattle.tidying.specs.Asks.{Has, tabled, Parts, Numbers, AskRuns, AskSame, Completable, unnumbered, AskMembers, Onward, AskNew, Lowest, blanks, Numbered, AllNumbered};

use crate::marking::MarkedTypes;
use description::TypeRecord;

// The number of a type that has none yet: no type has it, as there are at most 64. Where a number is read, the type is known to have one, so that an
// Option would be opened there for nothing: `is_new` asks for it.
const NONE: u8 = 255;

// The types of a description as far as they have numbers. By type and by number: the two lists are each other's inverse, and fixed memory.
#[derive(Drop)]
pub struct Numbering<'a> {
    pub types: MarkedTypes<'a>,
    // The number of each type, or NONE.
    pub numbers: [u8; 64],
    // The type of each number: the first of equal ones.
    pub originals: [u8; 64],
    pub count: usize,
    ghost right: { Numbers types.bytes.now numbers originals count } by { Prim.hlevel (props, Below-prop) },
}

impl<'a> Numbering<'a> {
    // No type has a number.
    fn new(types: MarkedTypes<'a>) -> Self
        ensures { (result.types ≡ types.entry) × (result.count ≡ 0) }
    {
        Numbering {
            types,
            numbers: [NONE; 64],
            originals: [0; 64],
            count: 0,
        }
    }

    // Whether type k has no number yet.
    fn is_new(&self, k: usize) -> bool
        requires { k < 64 }
        ensures { result ≡ eqb (get_or self.now.numbers k 0) 255 }
    {
        self.numbers[k] == NONE
    }

    // Whether `count` members from place a on and as many from place b on are the same types.
    fn are_same_members(&self, a: usize, b: usize, count: usize) -> bool
        requires { AskRuns self.now.types.bytes.now self.now.numbers a b count }
        ensures { result ≡ same_tys (tys_from (ty_at self.now.types.bytes.now) self.now.types.bytes.now a count)
            (tys_from (ty_at self.now.types.bytes.now) self.now.types.bytes.now b count) }
    {
        let d = self.types.bytes;
        for i in 0..count {
            let one = description::member_at(d, a + i);
            let other = description::member_at(d, b + i);
            if self.numbers[one] != self.numbers[other] {
                return false;
            }
        }
        true
    }

    // Whether types j and k, whose parts have numbers, are the same, by their records. Kind, second byte and count are compared in turn: a match on the pair
    // reads both records whole first, and `tidy` then takes up to a fifth more instructions where many types have the same marks.
    fn are_same_records(&self, j: usize, k: usize) -> bool
        requires { AskSame self.now.types.bytes.now self.now.numbers j k }
        ensures { result ≡ same_ty (ty_at self.now.types.bytes.now j) (ty_at self.now.types.bytes.now k) }
    {
        let d = self.types.bytes;
        let kind = description::kind_at(d, j);
        if kind != description::kind_at(d, k) {
            return false;
        }
        let a = description::a_at(d, j);
        let b = description::a_at(d, k);
        if kind == 0 {
            return a == b;
        }
        let count = description::count_at(d, j);
        if count != description::count_at(d, k) {
            return false;
        }
        if kind == 1 {
            return self.numbers[a] == self.numbers[b];
        }
        self.are_same_members(a, b, count)
    }

    // The same. Types with different marks are told apart by these alone.
    fn are_same(&self, j: usize, k: usize) -> bool
        requires { AskSame self.now.types.bytes.now self.now.numbers j k }
        ensures { result ≡ same_ty (ty_at self.now.types.bytes.now j) (ty_at self.now.types.bytes.now k) }
    {
        let marks = self.types.marks;
        marks[j] == marks[k] && self.are_same_records(j, k)
    }

    // The number of the type that type k is the same as.
    fn find_same(&self, k: usize) -> Option<usize>
        requires { Completable self.now.types.bytes.now self.now.numbers k }
        ensures { MatchOption result
            (self.now.count ≡ index_of (tabled self.now.types.bytes.now self.now.originals self.now.count) (ty_at self.now.types.bytes.now k))
            (λ j. (j ≡ index_of (tabled self.now.types.bytes.now self.now.originals self.now.count) (ty_at self.now.types.bytes.now k)) × (j < self.now.count)) }
    {
        for j in 0..self.count {
            let other = usize::from(self.originals[j]);
            if self.are_same(other, k) {
                return Some(j);
            }
        }
        None
    }

    // Numbers type k, whose parts have numbers: its number is that of the type that it is the same as, or the next.
    fn complete(&mut self, k: usize)
        requires { Completable self.old.types.bytes.now self.old.numbers k }
        ensures { (self.new.types ≡ self.old.types)
            × Numbered self.old.types.bytes.now k self.old.numbers self.new.numbers self.new.originals self.new.count
            (completed (tabled self.old.types.bytes.now self.old.originals self.old.count) (ty_at self.old.types.bytes.now k))
            × (blanks self.new.numbers < blanks self.old.numbers) }
    {
        let found = self.find_same(k);
        if let Some(j) = found {
            self.numbers[k] = j as u8;
            return;
        }
        self.numbers[k] = self.count as u8;
        self.originals[self.count] = k as u8;
        self.count += 1;
    }

    // The first of `count` members from place `first` on that has no number.
    fn first_new(&self, first: usize, count: usize) -> Option<usize>
        requires { AskMembers self.now.types.bytes.now first count × (first + count < 65536 + 256) }
        ensures { MatchOption result
            (first + count ≡ first_from (unnumbered self.now.types.bytes.now self.now.numbers) first count)
            (λ at. (at ≡ first_from (unnumbered self.now.types.bytes.now self.now.numbers) first count) × (at < first + count)) }
    {
        let d = self.types.bytes;
        for at in first..first + count {
            if self.is_new(description::member_at(d, at)) {
                return Some(at);
            }
        }
        None
    }

    // The first part of type k that has no number.
    fn next_part(&self, k: usize) -> Option<usize>
        requires { AskNew self.now.types.bytes.now self.now.numbers k }
        ensures { MatchOption result (Parts self.now.types.bytes.now self.now.numbers k)
            (λ part. Onward self.now.types.bytes.now self.now.numbers k part) }
    {
        let d = self.types.bytes;
        match description::record_at(d, k) {
            TypeRecord::Basic { .. } => None,
            TypeRecord::Array { element, .. } => {
                if self.is_new(element) {
                    Some(element)
                } else {
                    None
                }
            }
            TypeRecord::Group { first, count, .. } => {
                let at = self.first_new(first, count)?;
                Some(description::member_at(d, at))
            }
        }
    }

    // The type that is completed first on the way to type k.
    fn lowest(&self, k: usize) -> usize
        requires { AskNew self.now.types.bytes.now self.now.numbers k }
        ensures { Lowest self.now.types.bytes.now self.now.numbers k result }
    {
        let mut at = k;
        while let Some(part) = self.next_part(at) {
            at = part;
        }
        at
    }

    // Numbers type k and all that it is made of, depth first.
    fn reach(&mut self, k: usize)
        requires { k < types_in self.old.types.bytes.now }
        ensures { (self.new.types ≡ self.old.types)
            × Numbered self.old.types.bytes.now k self.old.numbers self.new.numbers self.new.originals self.new.count
            (reached (tabled self.old.types.bytes.now self.old.originals self.old.count) (ty_at self.old.types.bytes.now k)) }
    {
        while self.is_new(k) {
            let part = self.lowest(k);
            self.complete(part);
        }
    }

    // Numbers the returned type.
    fn reach_return(&mut self)
        ensures { (self.new.types ≡ self.old.types)
            × (tabled self.old.types.bytes.now self.new.originals self.new.count
            ≡ reached_by (tabled self.old.types.bytes.now self.old.originals self.old.count) (returned_by self.old.types.bytes.now))
            × ((return_in self.old.types.bytes.now ≡ 255 → ⊥) → Has self.new.numbers (return_in self.old.types.bytes.now)) }
    {
        let returns = description::byte_at(self.types.bytes, 9);
        if returns != 255 {
            self.reach(returns);
        }
    }

    // Numbers the types of all arguments.
    fn reach_arguments(&mut self)
        ensures { (self.new.types ≡ self.old.types)
            × (tabled self.old.types.bytes.now self.new.originals self.new.count
            ≡ reached_from (tabled self.old.types.bytes.now self.old.originals self.old.count) (trees_from self.old.types.bytes.now 0 (arguments_in self.old.types.bytes.now)))
            × ((i : ℕ) → i < arguments_in self.old.types.bytes.now → Has self.new.numbers (argument_at self.old.types.bytes.now i))
            × ((i : ℕ) → Has self.old.numbers i → Has self.new.numbers i) }
    {
        let d = self.types.bytes;
        let arguments = description::byte_at(d, 8);
        for i in 0..arguments {
            self.reach(description::argument_at(d, i));
        }
    }

    // Every type that the call reaches numbered, through return, then arguments.
    pub fn of_call(types: MarkedTypes<'a>) -> Self
        ensures { (result.types ≡ types.entry) × AllNumbered types.entry.bytes.now result.numbers result.originals result.count }
    {
        let mut numbering = Numbering::new(types);
        numbering.reach_return();
        numbering.reach_arguments();
        numbering
    }
}
