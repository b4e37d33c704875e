//! The types, aliases and funcs of a source, found by name.

ghost use Rattle.std.specs.Prelude.{◌≡◌, List, ℕ, [], ◌∷◌, ◌++◌, nat_lt, true, IfOk, OnOk, OnErr};
ghost use Rattle.sw_sight.specs.Levels.{level, IsKnown};
ghost use Rattle.sw_declared.specs.Names.{has_type, number_of, has_type_inner, has_alias, has_alias_inner, has_func};
ghost use Rattle.sw_declared.specs.Ranks.{actor_rank};

use crate::names::{Alias, DeclaredFunc, DeclaredType};
use crate::ranks::{
    actor_rank, alias_rank, func_rank, id_rank, is_id, is_inner, keep_first, prepare, raise,
};
use std::alloc::Global;
use std::marker::Model;
use sw_base::{Duplicate, Items, NoMemory, Text};
use sw_sight::Levels;

/// The types of a source, of which contracts see the list. Each question is one hashed look-up.
#[derive(Drop)]
pub struct Types {
    items: Items<DeclaredType>,
    /// By name: the number of the first type that has it, from 1.
    numbers: Levels,
    /// By name: 1 for a distributed actor.
    actors: Levels,
}

impl Model for Types {
    ghost use Rattle.std.specs.Prelude.{List};
    ghost use Rattle.sw_declared.specs.declared.names.DeclaredType.{DeclaredType};

    ghost Value = { List DeclaredType };

    ghost use Rattle.sw_declared.specs.Ranks.{AreTypesRanked};

    ghost view = { λ table. table.items };

    ghost invariant = { λ table. AreTypesRanked table.items table.numbers table.actors };
}

/// Sees to it that there is room for what is told of a type, and copies its name. What is told stays, also where
/// memory is wanted.
fn prepare_type(
    numbers: &mut Levels,
    actors: &mut Levels,
    item: &DeclaredType,
) -> Result<Text, NoMemory>
    ensures name { IfOk result (λ name. name ≡ item.now.name) }
    ensures numbered { OnOk result (IsKnown item.now.name numbers.new) }
    ensures ranked { OnOk result (nat_lt 0 (actor_rank item.now.form) ≡ true → IsKnown item.now.name actors.new) }
    ensures numbers { (x : List ℕ) → level x numbers.new ≡ level x numbers.old }
    ensures actors { (x : List ℕ) → level x actors.new ≡ level x actors.old }
{
    let name = item.name.copy()?;
    numbers.add(name.as_bytes())?;
    prepare(actors, name.as_bytes(), actor_rank(item.form))?;
    Ok(name)
}

impl Types {
    /// No types.
    pub fn new(alloc: Global) -> Types
        ensures { result ≡ [] }
    {
        Types {
            items: Items::new(alloc),
            numbers: Levels::new(alloc),
            actors: Levels::new(alloc),
        }
    }

    /// All types.
    pub fn as_slice(&self) -> &[DeclaredType]
        ensures { result.now ≡ self.now }
    {
        self.items.as_slice()
    }

    /// Adds a type at the end. The only error is want of memory, and leaves the table as it was.
    pub fn push(&mut self, item: DeclaredType) -> Result<(), NoMemory>
        ensures ok { OnOk result (self.new ≡ self.old ++ item ∷ []) }
        ensures err { OnErr result (self.new ≡ self.old) }
    {
        // what can fail comes first, and tells nothing yet
        match prepare_type(&mut self.numbers, &mut self.actors, &item) {
            Ok(text) => {
                let by_actor = actor_rank(item.form);
                let name = text.as_bytes();
                self.items.push(item)?;
                let number = self.items.len();
                keep_first(&mut self.numbers, name, number);
                raise(&mut self.actors, name, by_actor);
                Ok(())
            }
            Err(NoMemory) => Err(NoMemory),
        }
    }

    /// The number of the first type that has the name, from 1; 0 where none has it.
    pub fn number_of(&self, name: &[u8]) -> usize
        ensures { result ≡ number_of self.now name.now }
    {
        self.numbers.get(name)
    }

    /// Tells whether a type has the name.
    pub fn has(&self, name: &[u8]) -> bool
        ensures { result ≡ has_type self.now name.now }
    {
        self.numbers.get(name) > 0
    }

    /// Tells whether a type has the name, after which the type `inner` may stand.
    pub fn has_inner(&self, name: &[u8], inner: &[u8]) -> bool
        ensures { result ≡ has_type_inner self.now name.now inner.now }
    {
        is_id(self.actors.get(name), inner)
    }
}

/// The aliases that a source declares beside its types, of which contracts see the list. Each question is one
/// hashed look-up.
#[derive(Drop)]
pub struct Aliases {
    items: Items<Alias>,
    /// By name: 1, and 2 for one after which `ActorID` may stand.
    named: Levels,
    /// By name: 1 for one after which `ID` may stand.
    ids: Levels,
}

impl Model for Aliases {
    ghost use Rattle.std.specs.Prelude.{List};
    ghost use Rattle.sw_declared.specs.declared.names.Alias.{Alias};

    ghost Value = { List Alias };

    ghost use Rattle.sw_declared.specs.Ranks.{AreAliasesRanked};

    ghost view = { λ table. table.items };

    ghost invariant = { λ table. AreAliasesRanked table.items table.named table.ids };
}

impl Aliases {
    /// No aliases.
    pub fn new(alloc: Global) -> Aliases
        ensures { result ≡ [] }
    {
        Aliases {
            items: Items::new(alloc),
            named: Levels::new(alloc),
            ids: Levels::new(alloc),
        }
    }

    /// All aliases.
    pub fn as_slice(&self) -> &[Alias]
        ensures { result.now ≡ self.now }
    {
        self.items.as_slice()
    }

    /// Adds an alias at the end. The only error is want of memory, and leaves the table as it was.
    pub fn push(&mut self, item: Alias) -> Result<(), NoMemory>
        ensures ok { OnOk result (self.new ≡ self.old ++ item ∷ []) }
        ensures err { OnErr result (self.new ≡ self.old) }
    {
        let text = item.name.copy()?;
        let by_name = alias_rank(item.inner);
        let by_id = id_rank(item.inner);
        let name = text.as_bytes();
        // what can fail comes first, and tells nothing yet
        prepare(&mut self.named, name, by_name)?;
        prepare(&mut self.ids, name, by_id)?;
        self.items.push(item)?;
        raise(&mut self.named, name, by_name);
        raise(&mut self.ids, name, by_id);
        Ok(())
    }

    /// Tells whether an alias has the name.
    pub fn has(&self, name: &[u8]) -> bool
        ensures { result ≡ has_alias self.now name.now }
    {
        self.named.get(name) > 0
    }

    /// Tells whether an alias has the name, after which the type `inner` may stand.
    pub fn has_inner(&self, name: &[u8], inner: &[u8]) -> bool
        ensures { result ≡ has_alias_inner self.now name.now inner.now }
    {
        is_inner(self.ids.get(name) > 0, self.named.get(name) > 1, inner)
    }
}

/// The funcs, getters and initialisers of a source, of which contracts see the list. The question is one hashed
/// look-up.
#[derive(Drop)]
pub struct Funcs {
    items: Items<DeclaredFunc>,
    /// By name: 1 for a func of the file.
    named: Levels,
}

impl Model for Funcs {
    ghost use Rattle.std.specs.Prelude.{List};
    ghost use Rattle.sw_declared.specs.declared.names.DeclaredFunc.{DeclaredFunc};

    ghost Value = { List DeclaredFunc };

    ghost use Rattle.sw_declared.specs.Ranks.{AreFuncsRanked};

    ghost view = { λ table. table.items };

    ghost invariant = { λ table. AreFuncsRanked table.items table.named };
}

impl Funcs {
    /// No funcs.
    pub fn new(alloc: Global) -> Funcs
        ensures { result ≡ [] }
    {
        Funcs {
            items: Items::new(alloc),
            named: Levels::new(alloc),
        }
    }

    /// All funcs, getters and initialisers.
    pub fn as_slice(&self) -> &[DeclaredFunc]
        ensures { result.now ≡ self.now }
    {
        self.items.as_slice()
    }

    /// Adds one at the end. The only error is want of memory, and leaves the table as it was.
    pub fn push(&mut self, item: DeclaredFunc) -> Result<(), NoMemory>
        ensures ok { OnOk result (self.new ≡ self.old ++ item ∷ []) }
        ensures err { OnErr result (self.new ≡ self.old) }
    {
        let text = item.name.copy()?;
        let by_name = func_rank(item.kind);
        let name = text.as_bytes();
        prepare(&mut self.named, name, by_name)?;
        self.items.push(item)?;
        raise(&mut self.named, name, by_name);
        Ok(())
    }

    /// Tells whether a func of the file has the name.
    pub fn has_top_level(&self, name: &[u8]) -> bool
        ensures { result ≡ has_func self.now name.now }
    {
        self.named.get(name) > 0
    }
}
