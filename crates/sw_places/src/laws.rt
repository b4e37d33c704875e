//! What holds of places. The law is the contract of a function that does nothing.

ghost use Rattle.std.specs.Prelude.{◌≡◌, false, List, map};
ghost use Rattle.sw_grammar.specs.Grammar.{Budget};
ghost use Rattle.sw_places.specs.Places.{Alike, unplaced};
ghost use Rattle.sw_syntax.specs.Meaning.{Spells};
ghost use Rattle.sw_syntax.specs.Nonterminals.{Sort, Nonterminal};
ghost use Rattle.sw_syntax.specs.Tokens.{Sighted};

/// Tokens that are alike but for their places spell trees that are alike but for their places.
pub fn places_apart()
    ensures { (s : Nonterminal) (budget : Budget) (run other : List Sighted) (x : Sort s) → map unplaced run ≡ map unplaced other → Spells false s budget run x → (y : Sort s) × Spells false s budget other y × Alike s x y }
{}
