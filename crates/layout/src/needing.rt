// Whether a call needs the stack at all (document 02, request 2026-10): yes at the first argument that goes there, without those behind it.
ghost use Rattle.std.specs.Prelude.{◌≡◌};
ghost use Rattle.layout.specs.StackNeeds.{first_found, stack_answer};

use crate::{Described, Laying, deciding};
use form::Refusal;
use units::Bytes;

// Whether an argument goes to the stack, and how many arguments were looked at to know it: told of both answers, so it is no Option (`cb_needs_stack`).
#[derive(Clone, Copy)]
pub struct StackNeed {
    pub needed: bool,
    pub looked: usize,
}

impl<'a> Described<'a> {
    // The first argument that goes to the stack, if any: no stack is used before it, and some after it, since no type is empty.
    // A loop and no `find`: what is laid out goes on from argument to argument, and a closure that changes it is no plainer.
    fn first_stacked(self) -> Option<usize>
        ensures { result ≡ first_found self.entry.bytes.now }
    {
        let named = self.named();
        let mut laying = Laying::fresh(self.hidden());
        for i in 0..self.arguments() {
            self.pass_argument(i, i < named, &mut laying);
            if laying.used.stack > Bytes(0) {
                return Some(i);
            }
        }
        None
    }
}

// Whether any bytes' call needs the stack, or which of 1 to 9 refuses them: an area that is too large is one that is needed.
pub fn needs_stack(d: &[u8]) -> Result<StackNeed, Refusal>
    ensures { result ≡ stack_answer d.now }
{
    let mut table = [0u32; 64];
    deciding::judge(d, &mut table)?;
    let described = Described {
        bytes: d,
        table: &table,
    };
    Ok(match described.first_stacked() {
        Some(i) => StackNeed {
            needed: true,
            looked: i + 1,
        },
        None => StackNeed {
            needed: false,
            looked: described.arguments(),
        },
    })
}
