//! The members of a type, found by name.

ghost use Rattle.std.specs.Prelude.{◌≡◌, [], ◌∷◌, ◌++◌, OnOk, OnErr, IfOk};
ghost use Rattle.std.specs.List.{list_any};
ghost use Rattle.std.specs.Option.{option_copied, option_map};
ghost use Rattle.sw_declared.specs.Members.{has_member, has_static, has_type_member, has_inner_member, has_fitting, has_static_fitting};
ghost use Rattle.sw_declared.specs.Declarations.{argument_labels};
ghost use Rattle.sw_declared.specs.Facts.{is_above, is_call_above};
ghost use Rattle.sw_declared.specs.Spelling.{spelled};

use crate::facts::{Question, call_key, facts_of, name_key};
use crate::few::{FEW, any_above, any_call_above, first_few};
use crate::names::Member;
use crate::ranks::is_inner;
use crate::told::{prepare_facts, raise_facts};
use std::alloc::Global;
use std::marker::Model;
use sw_base::{Items, NoMemory};
use sw_sight::Levels;
use sw_tree::Argument;

/// The members of a type, of which contracts see the list. For each question the first few are looked through, and of
/// the others it is one hashed look-up; only where there is no memory for the key of a long name are all looked through.
#[derive(Drop)]
pub struct Members {
    alloc: Global,
    items: Items<Member>,
    /// By key: the greatest rank that is told of the members after the first few.
    told: Levels,
}

impl Model for Members {
    ghost use Rattle.std.specs.Prelude.{List};
    ghost use Rattle.sw_declared.specs.declared.names.Member.{Member};

    ghost Value = { List Member };

    ghost use Rattle.std.specs.Prelude.{drop};
    ghost use Rattle.sw_declared.specs.Facts.{few, AreTold};

    ghost view = { λ table. table.items };

    ghost invariant = { λ table. AreTold (drop few table.items) table.told };
}

impl Members {
    /// No members.
    pub fn new(alloc: Global) -> Members
        ensures { result ≡ [] }
    {
        Members {
            alloc,
            items: Items::new(alloc),
            told: Levels::new(alloc),
        }
    }

    /// All members.
    pub fn as_slice(&self) -> &[Member]
        ensures { result.now ≡ self.now }
    {
        self.items.as_slice()
    }

    /// Adds a member at the end. The only error is want of memory, and leaves the table as it was.
    pub fn push(&mut self, item: Member) -> Result<(), NoMemory>
        ensures ok { OnOk result (self.new ≡ self.old ++ item ∷ []) }
        ensures err { OnErr result (self.new ≡ self.old) }
    {
        if self.items.len() < FEW {
            return self.items.push(item);
        }
        let facts = facts_of(self.alloc, &item)?;
        // what can fail comes first, and tells nothing yet
        prepare_facts(&mut self.told, facts.as_slice())?;
        self.items.push(item)?;
        raise_facts(&mut self.told, facts.as_slice());
        Ok(())
    }

    /// Tells whether a member has the name.
    pub fn has(&self, name: &[u8]) -> bool
        ensures { result ≡ has_member self.now name.now }
    {
        self.tells(Question::Named, name, 0)
    }

    /// Tells whether a static member has the name.
    pub fn has_static(&self, name: &[u8]) -> bool
        ensures { result ≡ has_static self.now name.now }
    {
        self.tells(Question::Named, name, 1)
    }

    /// Tells whether a member that names a type has the name.
    pub fn has_type(&self, name: &[u8]) -> bool
        ensures { result ≡ has_type_member self.now name.now }
    {
        self.tells(Question::Aliased, name, 0)
    }

    /// Tells whether a member has the name, after which the type `inner` may stand.
    pub fn has_inner(&self, name: &[u8], inner: &[u8]) -> bool
        ensures { result ≡ has_inner_member self.now name.now inner.now }
    {
        is_inner(
            self.tells(Question::IdAliased, name, 0),
            self.tells(Question::Aliased, name, 1),
            inner,
        )
    }

    /// Tells whether a member has the name and is called with the labels of these arguments; without arguments,
    /// whether one has it that is not called. The only error is want of memory.
    pub fn has_fitting(&self, name: &[u8], called: Option<&[Argument]>) -> Result<bool, NoMemory>
        ensures { IfOk result (λ found. found ≡ has_fitting self.now name.now (option_map argument_labels (option_copied called.entry))) }
    {
        match called {
            None => Ok(self.tells(Question::Plain, name, 0)),
            Some(arguments) => self.tells_call(name, arguments, 0),
        }
    }

    /// Tells whether a static member has the name and is called with the labels of these arguments; without
    /// arguments, whether one has it that is not called. The only error is want of memory.
    pub fn has_static_fitting(
        &self,
        name: &[u8],
        called: Option<&[Argument]>,
    ) -> Result<bool, NoMemory>
        ensures { IfOk result (λ found. found ≡ has_static_fitting self.now name.now (option_map argument_labels (option_copied called.entry))) }
    {
        match called {
            None => Ok(self.tells(Question::Plain, name, 1)),
            Some(arguments) => self.tells_call(name, arguments, 1),
        }
    }

    /// Tells whether a member has the name, with a rank above the number.
    fn tells(&self, question: Question, name: &[u8], number: usize) -> bool
        ensures { result ≡ list_any (is_above question name.now number) self.now }
    {
        let items = self.items.as_slice();
        if any_above(first_few(items), question, name, number) {
            return true;
        }
        if items.len() <= FEW {
            return false;
        }
        match name_key(self.alloc, question, name) {
            Ok(key) => self.told.get(key.as_bytes()) > number,
            // only the key of a long name needs memory
            Err(NoMemory) => any_above(items, question, name, number),
        }
    }

    /// Tells whether a member has the name and is called with the labels of these arguments, with a rank above the
    /// number. The only error is want of memory.
    fn tells_call(
        &self,
        name: &[u8],
        arguments: &[Argument],
        number: usize,
    ) -> Result<bool, NoMemory>
        ensures { IfOk result (λ found. found ≡ list_any (is_call_above (spelled name.now (argument_labels arguments.now)) number) self.now) }
    {
        let items = self.items.as_slice();
        if any_call_above(first_few(items), name, arguments, number) {
            return Ok(true);
        }
        if items.len() <= FEW {
            return Ok(false);
        }
        let key = call_key(self.alloc, name, arguments)?;
        Ok(self.told.get(key.as_bytes()) > number)
    }
}
