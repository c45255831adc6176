// Refusals 11 and 12 of putting and taking (document 02, request 2026-02): the lengths of the lent buffers, and the byte of a returned _Bool.
ghost use Rattle.std.specs.Prelude.{◌≡◌, length};
ghost use Rattle.layout.specs.Verdict.{verdict};
ghost use Rattle.returning.specs.Returned.{return_length};
ghost use Rattle.returning.specs.Orders.{wrong_length, wrong_bool};

// 11: whether the value has not exactly so many bytes, the image not exactly 80, or the upper image not exactly 16.
#[tactic(auto, unfolding(crate::specs::Orders::wrong_length))]
pub fn wrong_length(right: usize, value: usize, image: usize, upper: usize) -> bool
    ensures { result ≡ wrong_length right value image upper }
{
    value != right || image != 80 || upper != 16
}

// 12: whether a _Bool is returned whose byte is not 0 or 1. Void and a value in memory have no byte.
pub fn wrong_bool(d: &[u8], value: &[u8]) -> bool
    requires { (verdict d.now ≡ 0) × (length value.now ≡ return_length d.now) }
    ensures { result ≡ wrong_bool d.now value.now }
{
    if value.is_empty() {
        return false;
    }
    moving::broken_byte(
        d,
        description::byte_at(d, 9),
        description::byte_at(value, 0),
    )
}
