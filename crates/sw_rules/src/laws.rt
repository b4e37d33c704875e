//! What holds of each pass. A law is the contract of a function that does nothing.

ghost use Rattle.std.specs.Prelude.{◌≡◌, ◌⊎◌, ◌↔◌};
ghost use Rattle.sw_rules.specs.declared.Refusal.{Refusal};
ghost use Rattle.sw_rules.specs.Pass.{IsFirst, RefusesNone, Then};
ghost use Rattle.sw_rules.specs.Refusal.{Precedes};

/// Of two refusals that differ one precedes the other, and not the other way round too; and the order goes on from one
/// refusal to the next. So of finitely many refusals there is a first.
pub fn refusals_are_ordered()
    ensures total { (a b : Refusal) → Precedes a b ⊎ (Precedes b a ⊎ (a ≡ b)) }
    ensures one_way { (a b : Refusal) → Precedes a b → Precedes b a → ⊥ }
    ensures onward { (a b c : Refusal) → Precedes a b → Precedes b c → Precedes a c }
{}

/// Any pass over a source. Nothing implements it: the laws below speak of each type that could.
pub trait Pass {
    /// The refusals that it has.
    ghost refuses: { Refusal → Type 0 };
}

/// A pass has no two first refusals.
pub fn one_first<P: Pass>()
    ensures { (a b : Refusal) → IsFirst P.refuses a → IsFirst P.refuses b → a ≡ b }
{}

/// Of two passes, one after the other, the first refusal is that of the earlier; or it is that of the later, and the
/// earlier refuses nothing.
pub fn first_in_turn<Earlier: Pass, Later: Pass>()
    ensures { (refusal : Refusal) → IsFirst (Then Earlier.refuses Later.refuses) refusal
        ↔ (IsFirst Earlier.refuses refusal ⊎ (RefusesNone Earlier.refuses × IsFirst Later.refuses refusal)) }
{}

/// Two passes, one after the other, refuse nothing exactly where neither does.
pub fn none_in_turn<Earlier: Pass, Later: Pass>()
    ensures { RefusesNone (Then Earlier.refuses Later.refuses) ↔ (RefusesNone Earlier.refuses × RefusesNone Later.refuses) }
{}
