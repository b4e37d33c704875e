//! What is known of the types of a source.

use sw_base::{Items, TypeNo};
use sw_members::Declarations;

/// What uses of a declared type need to know of it.
#[derive(Drop)]
pub struct TypeFacts {
    /// Its members, and its initialisers under the name `init`. Of a protocol what it requires.
    pub members: Declarations,
    /// The declared protocols after its `:`.
    pub protocols: Items<TypeNo>,
    /// Whether it is an enum of errors.
    pub is_error: bool,
    /// Whether `==` compares its values.
    pub is_equatable: bool,
    /// Whether it is an enum without payloads, whose values are printed as the names of their cases.
    pub is_printable: bool,
}

/// What is known of all types, and of what stands beside them.
#[derive(Drop)]
pub struct Facts {
    /// By `TypeNo`: `DistributedCallError`, and then the declared types in the order of the source.
    pub types: Items<TypeFacts>,
    /// The funcs of the file.
    pub funcs: Declarations,
    /// The funcs that are built in.
    pub built_in: Declarations,
    /// Members of `Int`.
    pub of_int: Declarations,
    /// Members of `String`.
    pub of_string: Declarations,
    /// Members of arrays.
    pub of_array: Declarations,
    /// Initialisers of `ActorID`.
    pub of_id: Declarations,
    /// Members of `NodeSystem`.
    pub of_system: Declarations,
}
