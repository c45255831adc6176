// Conditions 2 to 6 of document 01, "Refusal numbers", each by itself: 2 to 5 of bytes that have a header, 6 of each type record.
ghost use Rattle.std.specs.Prelude.{◌≡◌, ◌≤◌, ◌+◌, ◌<◌, length};
ghost use Rattle.form.specs.Conditions.{wrong_mark, wrong_version, wrong_counts, wrong_length, broken_basic, broken_array, high_member, broken_run, broken_record};
ghost use Rattle.description.specs.Description.{types_in, members_in, Whole};
ghost use Rattle.form.specs.Search.{first_within};

use description::TypeRecord;

// 2: whether bytes 0 to 2 are not KCB.
#[tactic(auto, unfolding(crate::specs::Conditions::wrong_mark))]
pub fn wrong_mark(d: &[u8]) -> bool
    requires { 11 ≤ length d.now }
    ensures { result ≡ wrong_mark d.now }
{
    d[0] != b'K' || d[1] != b'C' || d[2] != b'B'
}

// 3: whether bytes 3 and 4, as 16 bits, are not 1.
#[tactic(auto, unfolding(crate::specs::Conditions::wrong_version))]
pub fn wrong_version(d: &[u8]) -> bool
    requires { 11 ≤ length d.now }
    ensures { result ≡ wrong_version d.now }
{
    description::word_at(d, 3) != 1
}

// 4: whether a count is too high, or does not fit the others.
#[tactic(auto, unfolding(crate::specs::Conditions::wrong_counts, description::specs::Description::variadic_in))]
pub fn wrong_counts(d: &[u8]) -> bool
    requires { 11 ≤ length d.now }
    ensures { result ≡ wrong_counts d.now }
{
    let types = d[5];
    let flags = d[6];
    let named = d[7];
    let arguments = d[8];
    64 < types
        || 64 < arguments
        || 3 < flags
        || arguments < named
        || (flags % 2 == 0 && named != arguments)
}

// 5: whether there are more or fewer bytes than the counts ask for.
#[tactic(auto, unfolding(crate::specs::Conditions::wrong_length))]
pub fn wrong_length(d: &[u8]) -> bool
    requires { 11 ≤ length d.now }
    ensures { result ≡ wrong_length d.now }
{
    let types = usize::from(d[5]);
    let arguments = usize::from(d[8]);
    let members = usize::from(d[10]);
    d.len() != 11 + 4 * types + members + arguments
}

// ---- 6: the type records

#[tactic(auto, unfolding(crate::specs::Conditions::broken_basic))]
fn broken_basic(code: usize, count: usize) -> bool
    ensures { result ≡ broken_basic code count }
{
    17 <= code || count != 0
}

#[tactic(auto, unfolding(crate::specs::Conditions::broken_array))]
fn broken_array(owner: usize, element: usize, count: usize) -> bool
    ensures { result ≡ broken_array owner element count }
{
    owner <= element || count == 0 || 4096 < count
}

#[tactic(auto, unfolding(crate::specs::Conditions::broken_run))]
fn broken_run(d: &[u8], owner: usize, first: usize, count: usize) -> bool
    requires { Whole d.now × ((first < 256) × (count < 65536)) }
    ensures { result ≡ broken_run d.now owner first count }
{
    let end = first + count;
    count == 0
        || description::byte_at(d, 10) < end
        || (first..end).any(|at| owner <= description::member_at(d, at))
}

#[tactic(auto, unfolding(crate::specs::Conditions::broken_record))]
fn broken_record(d: &[u8], k: usize) -> bool
    requires { Whole d.now × (k < types_in d.now) }
    ensures { result ≡ broken_record d.now k }
{
    match description::record_at(d, k) {
        TypeRecord::Basic { code, count } => broken_basic(code, count),
        TypeRecord::Array { element, count } => broken_array(k, element, count),
        TypeRecord::Group { first, count, .. } => {
            // By number: any kind above 3 reads as a group too.
            3 < description::kind_at(d, k) || broken_run(d, k, first, count)
        }
    }
}

// The first type whose record is broken.
pub fn first_broken(d: &[u8]) -> Option<usize>
    requires { Whole d.now }
    ensures { result ≡ first_within (broken_record d.now) 0 (types_in d.now) }
{
    (0..description::byte_at(d, 5)).find(|&k| broken_record(d, k))
}
