//! What holds of the types of expressions when more is known. Each law is the contract of a function that does nothing.

ghost use Rattle.std.specs.Prelude.{◌≡◌, true, Some, List};
ghost use Rattle.sw_base.specs.declared.ids.Span.{Span};
ghost use Rattle.sw_value.specs.declared.ty.Ty.{Ty};
ghost use Rattle.sw_typed.specs.Syntax as x;
ghost use Rattle.sw_typing.specs.declared.need.Need.{Need};
ghost use Rattle.sw_typing.specs.declared.facts.Facts.{Facts};
ghost use Rattle.sw_resolve.specs.declared.scope.Scope.{Scope};
ghost use Rattle.sw_check_expr.specs.Forms.{all_typed};
ghost use Rattle.sw_check_expr.specs.Typing.{check, check_all, check_args, check_pieces};
ghost use Rattle.sw_monotone.specs.Growth.{AreFactsBelow, GrowsTo, all_values_typed};

/// An expression that has a type keeps it, with its whole elaborated tree, when more declarations give a type. So do the
/// elements of an array, arguments, and what stands in a string, where each has one.
pub fn types_are_kept()
    ensures expressions { (s s' : Scope) → GrowsTo s s' → (e : x.Expr) (n : Need) (at : Span) (t : Ty) → (check e s n at).typed.ty ≡ Some t → (check e s' n at).typed ≡ (check e s n at).typed }
    ensures elements { (s s' : Scope) → GrowsTo s s' → (es : x.Exprs) (n : Need) → all_typed (check_all es s n).all ≡ true → (check_all es s' n).all ≡ (check_all es s n).all }
    ensures arguments { (s s' : Scope) → GrowsTo s s' → (args : x.Args) (ns : List Need) → all_typed (check_args args s ns).all ≡ true → (check_args args s' ns).all ≡ (check_args args s ns).all }
    ensures pieces { (s s' : Scope) → GrowsTo s s' → (ps : x.Pieces) → all_values_typed (check_pieces ps s).all ≡ true → (check_pieces ps s').all ≡ (check_pieces ps s).all }
{}

/// Of what is known of types, being below is reflexive and transitive.
pub fn facts_are_ordered()
    ensures itself { (a : Facts) → AreFactsBelow a a }
    ensures onward { (a b c : Facts) → AreFactsBelow a b → AreFactsBelow b c → AreFactsBelow a c }
{}
