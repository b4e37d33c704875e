//! Equality of texts, as the definitions of this crate speak of it.

ghost use Rattle.std.specs.Prelude.{◌≡◌};
ghost use Rattle.sw_sight.specs.InSight.{same};

/// Tells whether two texts are the same.
#[tactic(auto, unfolding(sw_sight::specs::InSight::same))]
pub(crate) fn same(a: &[u8], b: &[u8]) -> bool
    ensures { result ≡ same a.now b.now }
{
    a == b
}
