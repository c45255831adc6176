// The arguments of a call, one after the other (document 01, "Places"): the record of each, what is used after some of them, and where the value is returned.
ghost use Rattle.std.specs.Prelude.{◌≡◌, ◌+◌, ◌^◌, ◌≤◌, ◌<◌, IfSome, IfNone};
ghost use Rattle.description.specs.Description.{types_in, named_in, arguments_in, return_in};
ghost use Rattle.layout.specs.Arguments.{is_named, return_place, returned_size, hidden};
ghost use Rattle.layout.specs.Placements.{laying_fresh, laying_at, step_of, step_at};
ghost use Rattle.layout.specs.Asks.{AskRecord, Alike};

use crate::Described;
use classify::Entry;
use places::{Argument, Place, ReturnPlace, Used};
use types::Extent;
use units::Bytes;

// One argument: its type's number, size and alignment, and its place; where its value begins in the packed values, and whether it is named (request 2026-07).
#[derive(Clone, Copy)]
pub struct Placement {
    pub ty: u8,
    pub size: Bytes,
    pub align: Bytes,
    pub place: Place,
    pub at: Bytes,
    pub named: bool,
}

// What is laid out after some arguments: so much is used, and their values have so many bytes.
#[derive(Clone, Copy)]
pub struct Laying {
    pub used: Used,
    pub values: Bytes,
}

impl Laying {
    // Where no argument is laid out yet: the hidden address may be, and there is no value.
    pub fn fresh(hidden: bool) -> Self
        ensures { result ≡ laying_fresh hidden }
    {
        Self {
            used: Used::fresh(hidden),
            values: Bytes(0),
        }
    }

    // The record of an argument of type k at this place; `used` is used after it.
    #[inline(always)]
    pub fn step(
        &mut self,
        k: usize,
        extent: Extent,
        place: Place,
        named: bool,
        used: Used,
    ) -> Placement
        requires { (k < 64) × (self.old.values.0 + extent.size.0 ≤ 2 ^ 63) }
        ensures { (result ≡ (step_of self.old k extent place named used).placement) × (self.new ≡ (step_of self.old k extent place named used).after) }
    {
        let Extent { size, align } = extent;
        let at = self.values;
        *self = Self {
            used,
            values: at + size,
        };
        Placement {
            ty: k as u8,
            size,
            align,
            place,
            at,
            named,
        }
    }
}

impl<'a> Described<'a> {
    // How many arguments are named.
    #[inline(always)]
    pub fn named(self) -> usize
        ensures { result ≡ named_in self.entry.bytes.now }
    {
        description::byte_at(self.bytes, 7)
    }

    // How many arguments there are.
    #[inline(always)]
    pub fn arguments(self) -> usize
        ensures { result ≡ arguments_in self.entry.bytes.now }
    {
        description::byte_at(self.bytes, 8)
    }

    // The type of the returned value; None is void.
    fn returned(self) -> Option<usize>
        ensures { IfSome result (λ k. (k ≡ return_in self.entry.bytes.now) × (k < types_in self.entry.bytes.now) × (k ≡ 255 → ⊥))
            × IfNone result (return_in self.entry.bytes.now ≡ 255) }
    {
        let k = description::byte_at(self.bytes, 9);
        if k == 255 { None } else { Some(k) }
    }

    // Where the value is returned.
    pub(crate) fn returns(self) -> ReturnPlace
        ensures { result ≡ return_place self.entry.bytes.now }
    {
        match self.returned() {
            Some(k) => {
                let [first, second] = classify::classes_in(self.table, k);
                places::return_place(first, second, classify::is_wide(self.table, k))
            }
            None => ReturnPlace::Void,
        }
    }

    // The size of the returned type. Void has none.
    pub(crate) fn returned_size(self) -> Bytes
        ensures { result.0 ≡ returned_size self.entry.bytes.now }
    {
        match self.returned() {
            Some(k) => types::extent_in(self.table, k).size,
            None => Bytes(0),
        }
    }

    // Whether a hidden address is passed for it.
    pub fn hidden(self) -> bool
        ensures { result ≡ hidden self.entry.bytes.now }
    {
        match self.returned() {
            Some(k) => places::hidden_for(classify::classes_in(self.table, k)[0]),
            None => false,
        }
    }

    // The record of argument i; the caller knows whether it is named.
    // Inlined with what it calls, so that no record of a place goes through memory where the caller takes it apart.
    #[inline(always)]
    pub fn place_as(self, i: usize, named: bool, laying: &mut Laying) -> Placement
        requires { AskRecord self.bytes.now i laying.old × (is_named self.bytes.now i ≡ named) }
        ensures { (result ≡ (step_at self.entry.bytes.now laying.old i).placement) × (laying.new ≡ (step_at self.entry.bytes.now laying.old i).after) }
    {
        let ty = description::argument_at(self.bytes, i);
        let argument = Argument {
            entry: Entry(self.table[ty]),
            named,
        };
        let mut used = laying.used;
        used.use_argument(argument);
        let place = laying.used.place_between(used, argument);
        laying.step(ty, argument.extent(), place, named, used)
    }

    // The record of argument i.
    #[inline(always)]
    pub fn place_argument(self, i: usize, laying: &mut Laying) -> Placement
        requires { AskRecord self.bytes.now i laying.old }
        ensures { (result ≡ (step_at self.entry.bytes.now laying.old i).placement) × (laying.new ≡ (step_at self.entry.bytes.now laying.old i).after) }
    {
        let named = i < self.named();
        self.place_as(i, named, laying)
    }

    // What is laid out after argument i, as its record says, without the record; the caller knows whether it is named.
    pub(crate) fn pass_argument(self, i: usize, named: bool, laying: &mut Laying)
        requires { AskRecord self.bytes.now i laying.old × (is_named self.bytes.now i ≡ named) }
        ensures { laying.new ≡ (step_at self.entry.bytes.now laying.old i).after }
    {
        let ty = description::argument_at(self.bytes, i);
        let argument = Argument {
            entry: Entry(self.table[ty]),
            named,
        };
        laying.values = laying.values + argument.extent().size;
        laying.used.use_argument(argument);
    }

    // What is laid out after the arguments `from` to `to` as well, all of which are named or none.
    pub(crate) fn lay_more(self, from: usize, to: usize, named: bool, laying: &mut Laying)
        requires { (from ≤ to) × (to ≤ arguments_in self.bytes.now) × (laying.old ≡ laying_at self.bytes.now from) × Alike self.bytes.now from to named }
        ensures { laying.new ≡ laying_at self.entry.bytes.now to }
    {
        for i in from..to {
            self.pass_argument(i, named, laying);
        }
    }
}
