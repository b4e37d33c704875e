//! A scope of declarations while its declarations are met one after another.

ghost use Rattle.std.specs.Prelude.{◌≡◌, ◌||◌, List, ℕ, [], ◌∷◌, IfOk, OnOk};
ghost use Rattle.sw_sight.specs.InSight.{same};
ghost use Rattle.sw_names.specs.Meeting.{Meets, is_met};

use std::alloc::Global;
use sw_base::{NoMemory, Span, Text};
use sw_declared::{spelled, spellings_tell};
use sw_findings::Findings;
use sw_rules::Rule;
use sw_sight::Levels;

/// The spellings that were met in the scope so far, those with a number above 0, and what the pass has found so far.
#[derive(Drop)]
pub(crate) struct Scope {
    pub(crate) met: Levels,
    pub(crate) found: Findings,
}

/// Meets a spelling: tells whether it was met before. The only error is want of memory.
#[tactic(auto, unfolding(crate::specs::Meeting::is_met))]
pub(crate) fn insert(met: &mut Levels, key: &[u8]) -> Result<bool, NoMemory>
    ensures known { IfOk result (λ known. known ≡ is_met key.now met.old) }
    ensures met { OnOk result ((x : List ℕ) → is_met x met.new ≡ (same x key.now || is_met x met.old)) }
{
    let known = met.get(key) > 0;
    met.add(key)?;
    met.set(key, 1);
    Ok(known)
}

/// Meets a declaration: N1 where its name and labels were met before. The only error is want of memory.
pub(crate) fn meet(
    alloc: Global,
    scope: &mut Scope,
    name: &[u8],
    labels: &[Option<Text>],
    at: Span,
) -> Result<(), NoMemory>
    ensures { OnOk result (Meets (record { name = name.now; labels = labels.now; at = at } ∷ []) scope.old scope.new) }
{
    spellings_tell();
    let key = spelled(alloc, name, labels)?;
    let known = insert(&mut scope.met, &key)?;
    scope.found.report(known, Rule::N1, at);
    Ok(())
}
