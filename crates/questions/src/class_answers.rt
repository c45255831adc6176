// The classes of a type (document 01, "A question about one type").
ghost use Rattle.std.specs.Prelude.{◌≡◌};
ghost use Rattle.questions.specs.Runs.{classes_answer};

use crate::refusals;
use classes::Class;
use form::Refusal;

// The classes of type t's eightbytes.
pub fn type_classes(d: &[u8], t: u8) -> Result<(Class, Class, Class, Class), Refusal>
    ensures { result ≡ classes_answer d.now t }
{
    let mut table = [0u32; 64];
    refusals::judge(d, t, &mut table)?;
    classify::fill_classes(d, &mut table);
    let k = t as usize;
    if classify::is_wide(&table, k) {
        return Ok((Class::Sse, Class::SseUp, Class::SseUp, Class::SseUp));
    }
    let classes = classify::classes_in(&table, k);
    Ok((classes[0], classes[1], Class::NoClass, Class::NoClass))
}
