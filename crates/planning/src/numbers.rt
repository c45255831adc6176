// Numbers of 16 bits in a lent list: read, and written one behind the other.
// By index: each call answers where the next number goes, and its clause says by that index what the whole list is then; a cursor would hide the list that the
// plan is promised of.
ghost use Rattle.std.specs.Prelude.{◌≡◌, cond, [], ◌∷◌, ◌+◌, ◌≤◌, ◌<◌, length, get_or};
ghost use Rattle.planning.specs.Planning.{overwritten};

// One number.
pub fn number_at(list: &[u16], i: usize) -> usize
    requires { i < length list.now }
    ensures { (result ≡ get_or list.now i 0) × (result < 65536) }
{
    usize::from(list[i])
}

// Two numbers, and three; each answers where the next one goes.
pub fn put_two(plan: &mut [u16], at: usize, a: usize, b: usize) -> usize
    requires { (at + 2 ≤ length plan.old) × (a < 65536) × (b < 65536) }
    ensures { (plan.new ≡ overwritten plan.old at (a ∷ b ∷ [])) × (result ≡ at + 2) }
{
    plan[at] = a as u16;
    plan[at + 1] = b as u16;
    at + 2
}

pub fn put_three(plan: &mut [u16], at: usize, a: usize, b: usize, c: usize) -> usize
    requires { (at + 3 ≤ length plan.old) × (a < 65536) × (b < 65536) × (c < 65536) }
    ensures { (plan.new ≡ overwritten plan.old at (a ∷ b ∷ c ∷ [])) × (result ≡ at + 3) }
{
    plan[at] = a as u16;
    plan[at + 1] = b as u16;
    plan[at + 2] = c as u16;
    at + 3
}

// A number where it is wanted.
pub fn put_if(wanted: bool, plan: &mut [u16], at: usize, a: usize) -> usize
    requires { (at + length (cond wanted (a ∷ []) []) ≤ length plan.old) × (a < 65536) }
    ensures { (plan.new ≡ overwritten plan.old at (cond wanted (a ∷ []) [])) × (result ≡ at + length (cond wanted (a ∷ []) [])) }
{
    if !wanted {
        return at;
    }
    plan[at] = a as u16;
    at + 1
}
