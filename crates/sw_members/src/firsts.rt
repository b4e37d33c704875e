//! Numbers by key, of which the first that is kept stays.

ghost use Rattle.std.specs.Prelude.{◌≡◌, ◌&&◌, List, ℕ, cond, nat_eq, OnOk};
ghost use Rattle.std.specs.List.{list_any};
ghost use Rattle.sw_sight.specs.InSight.{same};
ghost use Rattle.sw_sight.specs.Levels.{level, IsKnown};
ghost use Rattle.sw_members.specs.Keys.{AreKnown};

use sw_base::{NoMemory, Text};
use sw_sight::Levels;

/// Sees to it that a number is kept for each key. What is told stays, also where memory is wanted.
pub(crate) fn prepare(firsts: &mut Levels, keys: &[Text]) -> Result<(), NoMemory>
    ensures known { OnOk result (AreKnown keys.now firsts.new) }
    ensures levels { (x : List ℕ) → level x firsts.new ≡ level x firsts.old }
{
    for key in keys {
        firsts.add(key.as_bytes())?;
    }
    Ok(())
}

/// Keeps the number for the key, where none is kept.
#[tactic(auto, using(crate::proofs::Kept::first_set, crate::proofs::Kept::first_kept))]
fn keep_first(firsts: &mut Levels, key: &[u8], number: usize)
    ensures levels { IsKnown key.now firsts.old → (x : List ℕ) → level x firsts.new ≡ cond (same x key.now && nat_eq (level x firsts.old) 0) number (level x firsts.old) }
    ensures keeps { (x : List ℕ) → IsKnown x firsts.old → IsKnown x firsts.new }
{
    if firsts.get(key) == 0 {
        firsts.set(key, number);
    }
}

/// Keeps the number for each key for which none is kept.
pub(crate) fn keep_firsts(firsts: &mut Levels, keys: &[Text], number: usize)
    ensures { AreKnown keys.now firsts.old → (x : List ℕ) → level x firsts.new ≡ cond (list_any (same x) keys.now && nat_eq (level x firsts.old) 0) number (level x firsts.old) }
{
    for key in keys {
        keep_first(firsts, key.as_bytes(), number);
    }
}
