// The different members of a union. All its members lie at its own offset, so a type that was merged once adds nothing again, whatever was merged between:
// they are listed once, and the union is worked out from the list at each offset.
ghost use Rattle.std.specs.Prelude.{◌≡◌, ◌<◌, IfSome};
ghost use Rattle.description.specs.Description.{kind_at, Parts};
ghost use Rattle.classify.specs.Asks.{AskType};
ghost use Rattle.classify.specs.Table.{Listed};

use description::TypeRecord;

// In order of their first occurrence, `count` of them.
// A count beside an array: fixed memory, and 64 types are the most that a description has.
#[derive(Clone, Copy)]
pub struct Different {
    pub members: [u8; 64],
    pub count: usize,
}

impl Different {
    // None yet.
    pub fn none() -> Self {
        Self {
            members: [0; 64],
            count: 0,
        }
    }
}

// The different members of union k, which are `count` from place `first` on, in place of what the list holds. It is lent: by value it would be copied.
fn list_members(d: &[u8], k: usize, first: usize, count: usize, list: &mut Different)
    requires { AskType d.now k 0 × (kind_at d.now k ≡ 3) × (k < 64) × Parts d.now k first count }
    ensures { Listed d.now k list.new.members list.new.count }
{
    let mut seen = [false; 64];
    list.count = 0;
    for i in first..first + count {
        let member = description::member_at(d, i);
        if seen[member] {
            continue;
        }
        seen[member] = true;
        list.members[list.count] = member as u8;
        list.count += 1;
    }
}

// The same of any aggregate, by a lent list: none unless it is a union.
pub fn different_members<'a>(d: &[u8], k: usize, list: &'a mut Different) -> Option<&'a Different>
    requires { AskType d.now k 0 × (k < 64) }
    ensures { IfSome result (λ l. Listed d.now k l.now.members l.now.count) }
{
    match description::record_at(d, k) {
        TypeRecord::Group {
            union: true,
            first,
            count,
        } => {
            list_members(d, k, first, count, list);
            Some(list)
        }
        _ => None,
    }
}
