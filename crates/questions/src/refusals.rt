// Which refusal a question about one type gets (document 01, "A question about one type"): any bytes, any number, 1 to 7, then 8.
ghost use Rattle.std.specs.Prelude.{◌≡◌};
ghost use Rattle.description.specs.Description.{types_in, model_in};
ghost use Rattle.form.specs.Reading.{judgment};
ghost use Rattle.types.specs.Table.{sizes_after, Sizes};
ghost use Rattle.types.specs.Wrong.{refusal_for};
ghost use Rattle.questions.specs.Questions.{question_refusal};

use form::{Reason, Refusal};

// Which of the refusals 1 to 8 a question about type t gets; nothing where it gets none: then the table has an entry for each type.
pub fn judge(d: &[u8], t: u8, table: &mut [u32; 64]) -> Result<(), Refusal>
    ensures { (result ≡ judgment (question_refusal d.now t) (refusal_for d.now (question_refusal d.now t)))
        × (table.new ≡ sizes_after d.now table.old)
        × (question_refusal d.now t ≡ 0 → Sizes (model_in d.now) d.now (types_in d.now) table.new) }
{
    types::judge(d, table)?;
    if d[5] <= t {
        return Err(Refusal::from(Reason::WrongNumber));
    }
    Ok(())
}
