//! The table of declared types.

ghost use Rattle.std.specs.Prelude.{◌≡◌, slice_get, MatchOption};
ghost use Rattle.std.specs.Option.{option_copied};

use crate::settled::is_settled;
use crate::ty::Tys;
use std::marker::Model;
use sw_base::{ArgLabels, Items, Text, Texts, TypeNo};

/// A declared type or protocol.
#[derive(Debug, PartialEq, Drop)]
pub struct Kind {
    pub name: Text,
    pub form: Form,
    /// The declared protocols to which a struct or an enum is declared to conform.
    pub protocols: Items<TypeNo>,
    /// Whether it is declared `Codable`.
    pub is_codable: bool,
    /// Whether it is declared `Equatable` or `Hashable`.
    pub is_equatable: bool,
    /// Whether it is declared `Error`.
    pub is_error: bool,
}

/// What a declared type is made of.
#[derive(Debug, PartialEq, Drop)]
pub enum Form {
    /// The names and the types of the stored properties, in the order of their declaration.
    Struct(Texts, Tys),
    /// The cases, in the order of their declaration.
    Enum(Items<CaseOf>),
    /// A protocol, of which a value may be `any`.
    Protocol,
    /// A plain actor, with its stored properties.
    Plain(Texts, Tys),
    /// A distributed actor, with its stored properties.
    Distributed(Texts, Tys),
}

/// A case of an enum: its name, and the labels and the types of its payload.
#[derive(Debug, PartialEq, Drop)]
pub struct CaseOf {
    pub name: Text,
    pub labels: ArgLabels,
    pub types: Tys,
}

/// The table of the declared types and protocols, by their numbers.
///
/// By some levels each type lies above those that it holds, so that none holds itself. The parts of
/// each struct and enum that is declared `Codable`, and of each error, may cross between nodes.
#[derive(Debug, Drop)]
pub struct Kinds {
    kinds: Items<Kind>,
    levels: Items<u8>,
}

impl Model for Kinds {
    ghost use Rattle.std.specs.Prelude.{List};
    ghost use Rattle.sw_value.specs.declared.kinds.Kind.{Kind};

    ghost Value = { List Kind };

    ghost view = { λ table. table.kinds };

    ghost use Rattle.sw_value.specs.Settled.{IsSettled};

    ghost invariant = { λ table. IsSettled table.kinds table.levels };
}

impl Kinds {
    ghost use Rattle.sw_value.specs.Settled.{IsSettled};
    ghost use Rattle.sw_value.specs.Codable.{PartsCross, ErrorPartsCross};

    /// The table of these types, by their numbers; none where they are not settled by these levels.
    pub fn new(kinds: Items<Kind>, levels: Items<u8>) -> Option<Kinds>
        ensures { MatchOption result (IsSettled kinds levels → ⊥) (λ table. (table ≡ kinds) × IsSettled kinds levels) }
    {
        if is_settled(kinds.as_slice(), levels.as_slice()) {
            Some(Kinds { kinds, levels })
        } else {
            None
        }
    }

    /// All types.
    pub fn as_slice(&self) -> &[Kind]
        ensures { result.now ≡ self.now }
    {
        self.kinds.as_slice()
    }

    /// The level of each type by its number, where it has one. The types are settled by these levels.
    pub fn levels(&self) -> &[u8]
        ensures { IsSettled self.now result.now }
    {
        self.levels.as_slice()
    }

    /// What holds of each table: the parts of what may cross between nodes may cross, and so may those
    /// of each error.
    pub fn parts_cross(&self)
        ensures codable { PartsCross self.now }
        ensures errors { ErrorPartsCross self.now }
    {
        let _levels = self.levels();
    }

    /// The type of this number; none where no type has it.
    pub fn get(&self, number: TypeNo) -> Option<&Kind>
        ensures { option_copied result ≡ slice_get self.now number.0 }
    {
        self.as_slice().get(number.0 as usize)
    }
}
