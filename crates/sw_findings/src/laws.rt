//! What holds of the words of this crate. The law is the contract of a function that does nothing.

ghost use Rattle.std.specs.Prelude.{◌≡◌, ◌++◌, List, Option, None};
ghost use Rattle.sw_rules.specs.declared.Refusal.{Refusal};
ghost use Rattle.sw_findings.specs.Found.{Finds, Has, keep_all};

use sw_rules::refusals_are_ordered;

/// What is kept of refusals, in whatever order they are reported, is the first of them; and reports that follow one
/// another are one report.
pub fn finds_first()
    ensures finds { (refusals : List Refusal) → Finds (Has refusals) (keep_all None refusals) }
    ensures appends { (kept : Option Refusal) (xs ys : List Refusal) → keep_all kept (xs ++ ys) ≡ keep_all (keep_all kept xs) ys }
{
    refusals_are_ordered();
}
