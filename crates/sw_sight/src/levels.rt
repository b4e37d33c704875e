//! Numbers kept by name.

ghost use Rattle.std.specs.Prelude.{◌≡◌, [], cond, OnOk};
ghost use Rattle.sw_sight.specs.InSight.{Text, same};
ghost use Rattle.sw_sight.specs.Levels.{level, IsKnown};

use indexmap::IndexMap;
use std::alloc::Global;
use std::marker::Model;
use sw_base::NoMemory;

/// Numbers kept by name, which contracts see as a list.
#[derive(Drop)]
pub struct Levels {
    alloc: Global,
    table: IndexMap<Vec<u8>, usize>,
}

impl Model for Levels {
    ghost use Rattle.std.specs.Prelude.{List, ℕ, map};

    ghost Value = { List (List ℕ × ℕ) };

    ghost view = { λ levels. map (λ e. (e.0.items, e.1)) levels.table.entries };
}

impl Levels {
    /// No number is kept.
    pub fn new(alloc: Global) -> Levels
        ensures { result ≡ [] }
    {
        Levels {
            alloc,
            table: IndexMap::new(alloc),
        }
    }

    /// The number of a name, 0 where none is kept.
    pub fn get(&self, name: &[u8]) -> usize
        ensures { result ≡ level name.now self.now }
    {
        match self.table.get(name) {
            Some(level) => *level,
            None => 0,
        }
    }

    /// Sees to it that a number is kept for the name; a new one is 0.
    pub fn add(&mut self, name: &[u8]) -> Result<(), NoMemory>
        ensures known { OnOk result (IsKnown name.now self.new) }
        ensures levels { (x : Text) → level x self.new ≡ level x self.old }
        ensures keeps { (x : Text) → IsKnown x self.old → IsKnown x self.new }
    {
        if self.table.contains_key(name) {
            return Ok(());
        }
        let key = Vec::from_slice(self.alloc, name)?;
        self.table.insert(key, 0)?;
        Ok(())
    }

    /// Keeps another number for the name.
    pub fn set(&mut self, name: &[u8], number: usize)
        ensures levels { IsKnown name.now self.old → (x : Text) → level x self.new ≡ cond (same x name.now) number (level x self.old) }
        ensures keeps { (x : Text) → IsKnown x self.old → IsKnown x self.new }
    {
        match self.table.get_mut(name) {
            Some(kept) => {
                *kept = number;
            }
            None => {}
        }
    }
}
