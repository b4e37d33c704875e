//! Declarations, found by name.

ghost use Rattle.std.specs.Prelude.{◌≡◌, ◌<◌, ◌-◌, ◌^◌, length, [], ◌∷◌, ◌++◌, IfOk, IfSome, OnErr, OnOk};
ghost use Rattle.std.specs.List.{position};
ghost use Rattle.std.specs.Option.{option_copied};
ghost use Rattle.sw_declared.specs.Declarations.{argument_labels};
ghost use Rattle.sw_members.specs.Found.{any_callable, any_named, fitting, value_named};
ghost use Rattle.sw_members.specs.Given.{given_at, with_type};
ghost use Rattle.sw_members.specs.Keys.{answers, at_place, place};

use crate::declaration::{Declaration, Side};
use crate::firsts::{keep_firsts, prepare};
use crate::keys::{Question, answers, call_key, keys_of, name_key};
use std::alloc::Global;
use std::marker::Model;
use sw_base::{FuncNo, Items, NoMemory, Text};
use sw_declared::spellings_tell;
use sw_sight::Levels;
use sw_tree::Argument;
use sw_typed::Entity;
use sw_value::Ty;

/// Declarations, of which contracts see the list. Each question is one hashed look-up; only where there is no memory
/// for the key of a long name are all looked through.
#[derive(Drop)]
pub struct Declarations {
    alloc: Global,
    items: Items<Declaration>,
    /// By key: the place of the first declaration that has it, from 1.
    firsts: Levels,
}

impl Model for Declarations {
    ghost use Rattle.std.specs.Prelude.{List};
    ghost use Rattle.sw_members.specs.declared.declaration.Declaration.{Declaration};

    ghost Value = { List Declaration };

    ghost use Rattle.sw_members.specs.Keys.{IsKeyed};

    ghost view = { λ table. table.items };

    ghost invariant = { λ table. IsKeyed table.items table.firsts };
}

impl Declarations {
    /// No declarations.
    pub fn new(alloc: Global) -> Declarations
        ensures { result ≡ [] }
    {
        Declarations {
            alloc,
            items: Items::new(alloc),
            firsts: Levels::new(alloc),
        }
    }

    /// All declarations.
    pub fn as_slice(&self) -> &[Declaration]
        ensures { result.now ≡ self.now }
    {
        self.items.as_slice()
    }

    /// Adds a declaration at the end. The only error is want of memory, and leaves the list as it was.
    pub fn push(&mut self, item: Declaration) -> Result<(), NoMemory>
        ensures ok { OnOk result (self.new ≡ self.old ++ item ∷ []) }
        ensures err { OnErr result (self.new ≡ self.old) }
    {
        let keys = keys_of(self.alloc, &item)?;
        // what can fail comes first, and tells nothing yet
        prepare(&mut self.firsts, keys.as_slice())?;
        self.items.push(item)?;
        let number = self.items.len();
        keep_firsts(&mut self.firsts, keys.as_slice(), number);
        Ok(())
    }

    /// Gives the declaration at an index, counted from 0, this type. The only error is want of memory, and leaves the list
    /// as it was.
    pub fn give(&mut self, at: usize, gives: Ty) -> Result<(), NoMemory>
        requires { at < length self.old }
        ensures ok { OnOk result (self.new ≡ given_at at gives self.old) }
        ensures err { OnErr result (self.new ≡ self.old) }
    {
        let placeholder = placeholder(self.alloc)?;
        let item = self.items.replace(at, placeholder);
        self.items.replace(at, with_type(item, gives));
        Ok(())
    }

    /// The first declaration of the name on the side that stands as a value; none where there is none.
    pub fn value_named(&self, side: Side, name: &[u8]) -> Option<&Declaration>
        ensures { option_copied result ≡ value_named side name.now self.now }
    {
        self.at_place(self.place_of(Question::Value, side, name))
    }

    /// The first declaration of the name on the side that is called with the labels of these arguments; none where
    /// there is none. The only error is want of memory.
    pub fn fitting(
        &self,
        side: Side,
        name: &[u8],
        arguments: &[Argument],
    ) -> Result<Option<&Declaration>, NoMemory>
        ensures { IfOk result (λ found. option_copied found ≡ fitting side name.now (argument_labels arguments.now) self.now) }
    {
        let key = call_key(self.alloc, side, name, arguments)?;
        spellings_tell();
        Ok(self.at_place(self.firsts.get(key.as_bytes())))
    }

    /// Tells whether a declaration on the side has the name.
    pub fn any_named(&self, side: Side, name: &[u8]) -> bool
        ensures { result ≡ any_named side name.now self.now }
    {
        self.place_of(Question::Named, side, name) > 0
    }

    /// Tells whether a declaration on the side has the name and can be called.
    pub fn any_callable(&self, side: Side, name: &[u8]) -> bool
        ensures { result ≡ any_callable side name.now self.now }
    {
        self.place_of(Question::Callable, side, name) > 0
    }

    /// The place, from 1, of the first declaration that is asked for; 0 where there is none.
    fn place_of(&self, question: Question, side: Side, name: &[u8]) -> usize
        ensures { result ≡ place (answers question side name.now) self.now }
    {
        match name_key(self.alloc, question, side, name) {
            Ok(key) => self.firsts.get(key.as_bytes()),
            // only the key of a long name needs memory
            Err(NoMemory) => self.sought(question, side, name),
        }
    }

    /// The same place, sought without a key.
    fn sought(&self, question: Question, side: Side, name: &[u8]) -> usize
        ensures { result ≡ place (answers question side name.now) self.now }
    {
        match index_of(self.items.as_slice(), question, side, name) {
            Some(at) => at + 1,
            None => 0,
        }
    }

    /// The declaration at a place, counted from 1; none at 0.
    fn at_place(&self, place: usize) -> Option<&Declaration>
        ensures { option_copied result ≡ at_place place self.now }
    {
        if place == 0 {
            return None;
        }
        self.items.get(place - 1)
    }
}

/// The same declaration with this type.
fn with_type(item: Declaration, gives: Ty) -> Declaration
    ensures { result ≡ with_type gives item }
{
    Declaration {
        name: item.name,
        labels: item.labels,
        is_static: item.is_static,
        entity: item.entity,
        takes: item.takes,
        gives: Some(gives),
        is_mutating: item.is_mutating,
        is_var: item.is_var,
    }
}

/// What stands in the list while a declaration is changed.
fn placeholder(alloc: Global) -> Result<Declaration, NoMemory> {
    Ok(Declaration {
        name: Text::from_bytes(alloc, &[])?,
        labels: None,
        is_static: false,
        entity: Entity::Func(FuncNo(0)),
        takes: Items::new(alloc),
        gives: None,
        is_mutating: false,
        is_var: false,
    })
}

/// The index of the first declaration that is asked for.
fn index_of(items: &[Declaration], question: Question, side: Side, name: &[u8]) -> Option<usize>
    ensures index { result ≡ position (answers question side name.now) items.now }
    ensures small { IfSome result (λ at. at < 2 ^ 64 - 1) }
{
    items
        .iter()
        .position(|item| answers(question, side, name, item))
}
