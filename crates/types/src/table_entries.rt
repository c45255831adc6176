// A type's entry of the table: its size and alignment in one number, made and read (document 01, "Size/align").
ghost use Rattle.std.specs.Prelude.{◌≡◌, ◌<◌, ◌≤◌, get_or};
ghost use Rattle.types.specs.Table.{packed, IsEntry};

use crate::Extent;
use units::Bytes;

// The entry of a type in a table of sizes and alignments.
#[tactic(auto, unfolding(crate::specs::Table::packed))]
pub fn entry_of(extent: Extent) -> u32
    requires { (extent.size.0 ≤ 4096) × (extent.align.0 ≤ 32) }
    ensures { result ≡ packed extent.size.0 extent.align.0 }
{
    (extent.size.0 + 8192 * extent.align.0) as u32
}

// Size and alignment that an entry says. Nothing else takes them out of one.
pub fn extent_by(entry: u32) -> Extent
    ensures { IsEntry entry result }
{
    let entry = entry as usize;
    Extent {
        size: Bytes(entry % 8192),
        align: Bytes(entry / 8192 % 64),
    }
}

// Size and alignment of type k, by its entry.
pub fn extent_in(table: &[u32; 64], k: usize) -> Extent
    requires { k < 64 }
    ensures { IsEntry (get_or table.now k 0) result }
{
    extent_by(table[k])
}
