// The classes of aggregates over 16 bytes (request 2026-06): SSE and three SSEUP, or MEMORY. Above two eightbytes nothing else is left by the rule "whose first
// isn't SSE, or with a later one that isn't SSEUP, is MEMORY", and which of the two it is the members' classes tell: no member is looked at where it lies.
ghost use Rattle.std.specs.Prelude.{◌≡◌, cond, ◌&&◌, ◌<◌, ◌≤◌};
ghost use Rattle.description.specs.Description.{kind_at, model_in};
ghost use Rattle.types.specs.Asks.{Sized, SizedRun};
ghost use Rattle.types.specs.Size.{size_ty};
ghost use Rattle.types.specs.Decode.{ty_at, tys_from};
ghost use Rattle.classify.specs.Classify.{memory, classes_of};
ghost use Rattle.classify.specs.Vectors.{vector, each_fits, some_vector};
ghost use Rattle.classify.specs.Table.{word_of};

use crate::aggregates::Known;
use crate::table_words;
use crate::table_words::{Entry, Word};
use description::TypeRecord;
use units::Bytes;

// Whether `count` members of type k from place `first` on are one vector: each fits, and one of them is a vector by itself.
fn members_wide(known: Known, k: usize, first: usize, count: usize) -> bool
    requires { SizedRun (model_in known.d.now) known.d.now k first count 0 1 × (k ≤ known.types) }
    ensures { result ≡ (each_fits (model_in known.entry.d.now) (tys_from (ty_at known.entry.d.now) known.entry.d.now first count)
        && some_vector (model_in known.entry.d.now) (tys_from (ty_at known.entry.d.now) known.entry.d.now first count)) }
{
    let mut some = false;
    for i in first..first + count {
        let entry = Entry(known.table[description::member_at(known.d, i)]);
        if !entry.packed().fits_vector() {
            return false;
        }
        some |= entry.is_wide();
    }
    some
}

// Whether aggregate k, of 32 bytes, is one vector: an array where its element is. No basic type comes here.
fn is_vector(known: Known, k: usize) -> bool
    requires { Sized (model_in known.d.now) known.d.now k × (kind_at known.d.now k ≡ 0 → ⊥) × (size_ty (model_in known.d.now) (ty_at known.d.now k) ≡ 32) × (k ≤ known.types) }
    ensures { classes_of (model_in known.entry.d.now) (ty_at known.entry.d.now k) ≡ cond result vector memory }
{
    match description::record_at(known.d, k) {
        TypeRecord::Basic { .. } => false,
        TypeRecord::Array { element, .. } => table_words::is_wide(known.table, element),
        TypeRecord::Group { first, count, .. } => members_wide(known, k, first, count),
    }
}

// The classes of aggregate k, of `size` bytes, over 16, and what they ask for, in one number: MEMORY unless it has 32.
pub fn wide_word(known: Known, k: usize, size: Bytes) -> Word
    requires { Sized (model_in known.d.now) known.d.now k × (kind_at known.d.now k ≡ 0 → ⊥) × (size.0 ≡ size_ty (model_in known.d.now) (ty_at known.d.now k)) × (16 < size.0) × (k ≤ known.types) }
    ensures { result.0 ≡ word_of (classes_of (model_in known.entry.d.now) (ty_at known.entry.d.now k)) }
{
    if size == Bytes(32) && is_vector(known, k) {
        Word::VECTOR
    } else {
        Word::MEMORY
    }
}
