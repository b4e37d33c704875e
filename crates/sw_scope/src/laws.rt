//! What holds of walks over events. The law is the contract of a function that does nothing.

ghost use Rattle.std.specs.Prelude.{◌≡◌, ◌↔◌, ◌++◌, List, [], Option};
ghost use Rattle.sw_rules.specs.declared.Refusal.{Refusal};
ghost use Rattle.sw_findings.specs.Found.{Has, keep_all};
ghost use Rattle.sw_scope.specs.Around.{Around};
ghost use Rattle.sw_scope.specs.Events.{Event};
ghost use Rattle.sw_scope.specs.Rules.{Breaks};
ghost use Rattle.sw_scope.specs.Walk.{broken, run};
ghost use Rattle.sw_scope.specs.declared.seen.Seen.{Seen};

/// A walk that begins with no name in sight finds what its events break, and nothing else; and walks may follow one
/// another.
pub fn walks_find_what_is_broken()
    ensures kept { (around : Around) (events : List Event) (found : Option Refusal)
        → (run around events (record { sight = []; found = found })).found ≡ keep_all found (broken around events) }
    ensures told { (around : Around) (events : List Event) (refusal : Refusal)
        → Has (broken around events) refusal ↔ Breaks around events refusal }
    ensures in_turn { (around : Around) (xs ys : List Event) (seen : Seen) → run around (xs ++ ys) seen ≡ run around ys (run around xs seen) }
{}
