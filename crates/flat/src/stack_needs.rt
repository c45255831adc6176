// Whether a call needs the stack, as a flat record (include/callbridge.h, cb_stack_need).
ghost use Rattle.std.specs.Prelude.{◌≡◌};
ghost use Rattle.flat.specs.StackNeeds.{flat_need};

use crate::StackNeed;

impl From<layout::StackNeed> for StackNeed {
    ghost from_gives = { λ need flat. flat ≡ flat_need need };

    fn from(need: layout::StackNeed) -> Self {
        StackNeed {
            looked: need.looked,
            needed: u8::from(need.needed),
            reserved_1: 0,
            reserved_2: 0,
            reserved_4: 0,
        }
    }
}
