//! Numbers by key, raised to what facts tell.

ghost use Rattle.std.specs.Prelude.{◌≡◌, ◌||◌, List, ℕ, nat_lt, OnOk};
ghost use Rattle.std.specs.List.{list_any};
ghost use Rattle.sw_sight.specs.Levels.{level};
ghost use Rattle.sw_declared.specs.Facts.{tells, AreKnown};

use crate::facts::Fact;
use crate::ranks::raise;
use sw_base::NoMemory;
use sw_sight::Levels;

/// Sees to it that a number is kept for the key of each fact. What is told stays, also where memory is wanted.
pub(crate) fn prepare_facts(told: &mut Levels, facts: &[Fact]) -> Result<(), NoMemory>
    ensures known { OnOk result (AreKnown facts.now told.new) }
    ensures levels { (x : List ℕ) → level x told.new ≡ level x told.old }
{
    for fact in facts {
        told.add(fact.key.as_bytes())?;
    }
    Ok(())
}

/// Tells facts, for which there is room.
pub(crate) fn raise_facts(told: &mut Levels, facts: &[Fact])
    ensures { AreKnown facts.now told.old → (x : List ℕ) (n : ℕ) → nat_lt n (level x told.new) ≡ (nat_lt n (level x told.old) || list_any (tells x n) facts.now) }
{
    for fact in facts {
        raise(told, fact.key.as_bytes(), fact.rank);
    }
}
