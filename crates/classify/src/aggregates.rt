// The classes of one type where it lies in the whole (document 01, "Classes of aggregates"): each member at its offset in the whole, in member order,
// each inner aggregate cleaned up first. `at` and `worked_out` call each other; an answer that is known is looked up. Classes are packed
// in one number (packed_classes).
ghost use Rattle.classify.specs.Table.{Ready};

use crate::packed_classes::Packed;
use crate::table_words;
use crate::table_words::Entry;
use crate::unions::Different;
use description::TypeRecord;
use units::Bytes;

// A description whose types are sized, and what is known so far of their classes: the table has those of its first `types` types, at offset 0, and
// `finished` other answers, that for type k at offset `at` below 8 in place 8 * k + at, or 0.
// A number, 0 for no answer: an Option for each place would double what every call sets to zero.
#[derive(Clone, Copy)]
pub struct Known<'a> {
    pub d: &'a [u8],
    pub table: &'a [u32; 64],
    pub finished: &'a [u8; 512],
    pub types: usize,
    ghost ready: { Ready d.now table.now finished.now types },
}

impl<'a> Known<'a> {
    ghost use Rattle.std.specs.Prelude.{◌≡◌, ◌≤◌, ◌<◌, IfSome};
    ghost use Rattle.description.specs.Description.{model_in};
    ghost use Rattle.classes.specs.Classes.{no_classes};
    ghost use Rattle.types.specs.Decode.{ty_at, tys_from};
    ghost use Rattle.classify.specs.Classify.{elements_at, classes_at, members_at};
    ghost use Rattle.classify.specs.Asks.{AskType, AskElements, AskMembers};
    ghost use Rattle.classify.specs.Table.{pair_in, Listed};

    // The answer for type k at offset `at` where it is known. Its entry has its classes, which are those at offset 0. A type that lies
    // in one eightbyte has one class, wherever it lies in it; other answers are finished ones.
    fn look_up(self, k: usize, at: Bytes) -> Option<Packed>
        requires { AskType self.d.now k at.0 × (k < self.types) }
        ensures { IfSome result (λ r. pair_in r.0 ≡ classes_at (model_in self.entry.d.now) 2 (ty_at self.entry.d.now k) at.0) }
    {
        let packed = Entry(self.table[k]).packed();
        let offset = at.0;
        if offset == 0 {
            return Some(packed);
        }
        if 8 <= offset {
            return Some(Packed(64 + 8 * packed.first()));
        }
        if offset + types::extent_in(self.table, k).size.0 <= 8 {
            return Some(packed);
        }
        match self.finished[8 * k + offset] {
            0 => None,
            finished => Some(Packed(finished)),
        }
    }

    // The classes of type k at offset `at` of the whole: looked up, or worked out.
    #[cycle(type_classes)]
    fn at(self, k: usize, at: Bytes) -> Packed
        requires { AskType self.d.now k at.0 × (k < self.types) }
        ensures { pair_in result.0 ≡ classes_at (model_in self.entry.d.now) 2 (ty_at self.entry.d.now k) at.0 }
    {
        match self.look_up(k, at) {
            Some(packed) => packed,
            None => self.worked_out(k, at),
        }
    }

    // The classes of type k at offset `at` of the whole, from those of the types that it names.
    #[cycle(type_classes)]
    pub fn worked_out(self, k: usize, at: Bytes) -> Packed
        requires { AskType self.d.now k at.0 × (k ≤ self.types) }
        ensures { pair_in result.0 ≡ classes_at (model_in self.entry.d.now) 2 (ty_at self.entry.d.now k) at.0 }
    {
        match description::record_at(self.d, k) {
            TypeRecord::Basic { code, .. } => Packed::from(table_words::basic_at(code, at)),
            TypeRecord::Array { element, count } => {
                let size = types::extent_in(self.table, element).size;
                self.of_elements(element, count, size, at).cleaned()
            }
            TypeRecord::Group {
                union,
                first,
                count,
            } => self.of_members(k, first, count, union, at).cleaned(),
        }
    }

    // `count` elements of type k, of `size` bytes each, from offset `at` on, merged.
    #[cycle(type_classes)]
    fn of_elements(self, k: usize, count: usize, size: Bytes, at: Bytes) -> Packed
        requires { AskElements self.d.now k count size.0 at.0 × (k < self.types) }
        ensures { pair_in result.0 ≡ elements_at (classes_at (model_in self.entry.d.now) 2 (ty_at self.entry.d.now k)) size.0 count at.0 (no_classes 2) }
    {
        let mut merged = Packed::NONE;
        let mut offset = at;
        for _ in 0..count {
            merged = merged.merged(self.at(k, offset));
            offset = offset + size;
        }
        merged
    }

    // `count` members of type k, which is at offset `at`, from place `first` on, merged.
    #[cycle(type_classes)]
    fn of_members(self, k: usize, first: usize, count: usize, union: bool, at: Bytes) -> Packed
        requires { AskMembers self.d.now k first count union 0 at.0 × (k ≤ self.types) }
        ensures { pair_in result.0 ≡ members_at (model_in self.entry.d.now) 2 (tys_from (ty_at self.entry.d.now) self.entry.d.now first count) union 0 at.0 (no_classes 2) }
    {
        let mut merged = Packed::NONE;
        let mut end = Bytes(0);
        for i in first..first + count {
            let member = description::member_at(self.d, i);
            let extent = types::extent_in(self.table, member);
            let offset = types::offset_after(union, end, extent.align);
            merged = merged.merged(self.at(member, at + offset));
            end = end.max(offset + extent.size);
        }
        merged
    }

    // The classes of union k at offset `at` of the whole, from its different members.
    fn of_different(self, k: usize, different: &Different, at: Bytes) -> Packed
        requires { Listed self.d.now k different.now.members different.now.count × AskType self.d.now k at.0 × (k ≤ self.types) }
        ensures { pair_in result.0 ≡ classes_at (model_in self.entry.d.now) 2 (ty_at self.entry.d.now k) at.0 }
    {
        let mut merged = Packed::NONE;
        for &member in &different.members[..different.count] {
            merged = merged.merged(self.at(usize::from(member), at));
        }
        merged.cleaned()
    }

    // The classes of aggregate k at offset `at` of the whole; `different` are its different members, if it is a union.
    #[inline]
    pub fn of_aggregate(self, k: usize, different: Option<&Different>, at: Bytes) -> Packed
        requires { IfSome different (λ l. Listed self.d.now k l.now.members l.now.count) × AskType self.d.now k at.0 × (k ≤ self.types) }
        ensures { pair_in result.0 ≡ classes_at (model_in self.entry.d.now) 2 (ty_at self.entry.d.now k) at.0 }
    {
        match different {
            Some(different) => self.of_different(k, different, at),
            None => self.worked_out(k, at),
        }
    }
}
