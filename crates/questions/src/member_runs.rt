// A type's run of members (document 01, "A question about one type"): where it lies, and the part of the description that holds it.
ghost use Rattle.std.specs.Prelude.{◌≡◌, length};
ghost use Rattle.questions.specs.Runs.{RunFits, run_in, run_answer};

use crate::refusals;
use description::TypeRecord;
use form::Refusal;
use units::Bytes;

// Where type t's run of members lies in the description: its offset, and how many there are. A basic type and an array have none.
pub fn run_at(d: &[u8], t: u8) -> Result<Option<(Bytes, usize)>, Refusal>
    ensures { (result ≡ run_answer d.now t) × RunFits result (length d.now) }
{
    let mut table = [0u32; 64];
    refusals::judge(d, t, &mut table)?;
    match description::record_at(d, t as usize) {
        TypeRecord::Group { first, count, .. } => {
            let types = usize::from(d[5]);
            Ok(Some((Bytes(11 + 4 * types + first), count)))
        }
        _ => Ok(None),
    }
}

// The part of the description that holds type t's run; empty for a refusal or another kind.
pub fn member_run(d: &[u8], t: u8) -> &[u8]
    ensures { result.now ≡ run_in (run_answer d.now t) d.now }
{
    match run_at(d, t) {
        Ok(Some((offset, count))) => &d[offset.0..offset.0 + count],
        _ => &d[..0],
    }
}
