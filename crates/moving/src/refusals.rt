// Refusals 11, 27 and 12 of placing and gathering (document 01, "Refusal numbers"; request 2026-11): the lengths of the lent buffers, the hidden address,
// and the bytes of _Bool arguments.
ghost use Rattle.std.specs.Prelude.{◌≡◌, ◌<◌, ◌≤◌, ltb, length};
ghost use Rattle.moving.specs.Orders.{wrong_length, is_bool, broken_byte, wrong_bool};
ghost use Rattle.moving.specs.Images.{amd64};
ghost use Rattle.moving.specs.Address.{wrong_address};
ghost use Rattle.description.specs.Description.{types_in, model_in, Whole};
ghost use Rattle.layout.specs.Layout.{values_of};
ghost use Rattle.layout.specs.Verdict.{verdict};
ghost use Rattle.form.specs.Search.{first_from};

use description::{Model, TypeRecord};
use layout::{Described, Layout};
use units::Bytes;

// ---- 11

// 11: whether a lent buffer has not exactly the length that the layout says.
#[tactic(auto, unfolding(crate::specs::Orders::wrong_length))]
pub fn wrong_length(
    layout: Layout,
    values: usize,
    registers: usize,
    upper: usize,
    stack: usize,
) -> bool
    ensures { result ≡ wrong_length layout values registers upper stack }
{
    Bytes(values) != layout.values
        || registers != 176
        || upper != 128
        || Bytes(stack) != layout.area
}

// ---- 27

// 27: whether the hidden address is used, and does not fit into the 4 bytes of a pointer.
pub fn wrong_address(d: &[u8], used: bool, address: u64) -> bool
    requires { 11 ≤ length d.now }
    ensures { result ≡ wrong_address (model_in d.now) used address }
{
    match description::model_of(d) {
        Model::Lp64 => false,
        Model::Ilp32 => used && 4294967296 <= address,
    }
}

// ---- 12: the byte of one _Bool

// Whether type k is _Bool, by its own record.
#[tactic(auto, unfolding(crate::specs::Orders::is_bool))]
pub fn is_bool(d: &[u8], k: usize) -> bool
    requires { Whole d.now × (k < types_in d.now) }
    ensures { result ≡ is_bool d.now k }
{
    matches!(
        description::record_at(d, k),
        TypeRecord::Basic { code: 0, .. }
    )
}

// Whether type k is _Bool, and the byte is not 0 or 1.
#[tactic(auto, unfolding(crate::specs::Orders::broken_byte))]
pub fn broken_byte(d: &[u8], k: usize, byte: usize) -> bool
    requires { Whole d.now × (k < types_in d.now) }
    ensures { result ≡ broken_byte d.now k byte }
{
    is_bool(d, k) && 1 < byte
}

// ---- 12: whether an argument breaks it

// Whether there is a type that is _Bool, by its own record.
fn has_bool(d: &[u8]) -> bool
    requires { Whole d.now }
    ensures { result ≡ ltb (first_from (is_bool d.now) 0 (types_in d.now)) (types_in d.now) }
{
    for k in 0..description::byte_at(d, 5) {
        if is_bool(d, k) {
            return true;
        }
    }
    false
}

// Whether a _Bool argument's byte is not 0 or 1, argument by argument.
fn some_broken(described: Described, values: &[u8]) -> bool
    requires { (verdict described.bytes.now ≡ 0) × (length values.now ≡ values_of described.bytes.now) }
    ensures { result ≡ wrong_bool amd64 described.entry.bytes.now values.now }
{
    let d = described.bytes;
    let mut start = Bytes(0);
    for i in 0..described.arguments() {
        let k = description::argument_at(d, i);
        if broken_byte(d, k, description::byte_at(values, start.0)) {
            return true;
        }
        start = start + types::extent_in(described.table, k).size;
    }
    false
}

// Whether a _Bool argument's byte is not 0 or 1. Where no type is _Bool there is none to search for.
pub fn wrong_bool(described: Described, values: &[u8]) -> bool
    requires { (verdict described.bytes.now ≡ 0) × (length values.now ≡ values_of described.bytes.now) }
    ensures { result ≡ wrong_bool amd64 described.entry.bytes.now values.now }
{
    has_bool(described.bytes) && some_broken(described, values)
}
