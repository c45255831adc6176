// The classes of all types of a description (document 01, "Classes of aggregates"), put into the table of types.
// They are worked out from number 0 upward, and each answer is looked up from then on: no description takes long.
ghost use Rattle.std.specs.Prelude.{◌≡◌, IfSome};
ghost use Rattle.description.specs.Description.{types_in, kind_at, model_in};
ghost use Rattle.types.specs.Asks.{Sized};
ghost use Rattle.types.specs.Decode.{ty_at};
ghost use Rattle.types.specs.Large.{types_refusal};
ghost use Rattle.types.specs.Table.{filled, Sizes};
ghost use Rattle.classify.specs.Classify.{classes_of};
ghost use Rattle.classify.specs.Table.{word_of, Right, Ready, Listed, full_entry, Tabled};

use crate::aggregates::Known;
use crate::table_words::{Entry, Word};
use crate::unions::Different;
use crate::{unions, wide_aggregates};
use description::TypeRecord;
use units::Bytes;

// Here description, table and finished answers go side by side: the answers are written between the looks, so no `Known` holds them throughout.

// The finished answers of aggregate k: at each offset at which it lies in both eightbytes. `different` are its different members, if it is a union.
fn finish(
    d: &[u8],
    k: usize,
    different: Option<&Different>,
    table: &[u32; 64],
    finished: &mut [u8; 512],
)
    requires { Sized (model_in d.now) d.now k × IfSome different (λ l. Listed d.now k l.now.members l.now.count) × Ready d.now table.now finished.old k }
    ensures { Right d.now finished.new }
{
    let extent = types::extent_in(table, k);
    let size = extent.size.0;
    for at in (extent.align.0..8).step_by(extent.align.0) {
        if 8 < at + size && at + size <= 16 {
            let known = Known {
                d,
                table,
                finished,
                types: k,
            };
            finished[8 * k + at] = known.of_aggregate(k, different, Bytes(at)).0;
        }
    }
}

// The classes of aggregate k and what they ask for.
fn aggregate_word(d: &[u8], k: usize, table: &[u32; 64], finished: &mut [u8; 512]) -> Word
    requires { Sized (model_in d.now) d.now k × (kind_at d.now k ≡ 0 → ⊥) × Ready d.now table.now finished.old k }
    ensures { (result.0 ≡ word_of (classes_of (model_in d.now) (ty_at d.now k))) × Right d.now finished.new }
{
    let size = types::extent_in(table, k).size;
    if size > Bytes(16) {
        let known = Known {
            d,
            table,
            finished,
            types: k,
        };
        return wide_aggregates::wide_word(known, k, size);
    }
    let mut list = Different::none();
    let different = unions::different_members(d, k, &mut list);
    finish(d, k, different, table, finished);
    let known = Known {
        d,
        table,
        finished,
        types: k,
    };
    Word::from(known.of_aggregate(k, different, Bytes(0)))
}

// The same of any type.
fn word_at(d: &[u8], k: usize, table: &[u32; 64], finished: &mut [u8; 512]) -> Word
    requires { Sized (model_in d.now) d.now k × Ready d.now table.now finished.old k }
    ensures { (result.0 ≡ word_of (classes_of (model_in d.now) (ty_at d.now k))) × Right d.now finished.new }
{
    match description::record_at(d, k) {
        TypeRecord::Basic { code, .. } => Word::basic(code),
        _ => aggregate_word(d, k, table, finished),
    }
}

// Works out the classes of each type, from number 0 upward, and puts them into the table.
pub fn fill_classes(d: &[u8], table: &mut [u32; 64])
    requires { (types_refusal d.now ≡ 0) × Sizes (model_in d.now) d.now (types_in d.now) table.old }
    ensures { (table.new ≡ filled (full_entry d.now) (types_in d.now) table.old)
        × Tabled d.now table.new }
{
    let types = description::byte_at(d, 5);
    let mut finished = [0u8; 512];
    for k in 0..types {
        let word = word_at(d, k, table, &mut finished);
        table[k] = Entry(table[k]).with_word(word).0;
    }
}
