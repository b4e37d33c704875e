//! What a source declares.

use crate::member_table::Members;
use crate::tables::{Aliases, Funcs, Types};
use sw_base::{ArgLabels, Text, TypeNo};

/// The type that may stand after the `.` that follows a type's name.
#[derive(Clone, Copy, Debug, PartialEq, Eq)]
pub enum Inner {
    /// No type may.
    Nothing,
    /// `ID`
    Id,
    /// `ActorID`
    ActorId,
}

/// The form of a declared type.
#[derive(Clone, Copy, Debug, PartialEq, Eq)]
pub enum Form {
    Struct,
    Enum,
    Protocol,
    Actor,
    DistributedActor,
}

/// What a member is.
#[derive(Clone, Copy, Debug, PartialEq, Eq)]
pub enum MemberKind {
    /// A stored property.
    Stored,
    /// A computed property.
    Computed,
    Func,
    /// A case of an enum.
    Case,
    /// An alias of a type, after whose name this type may stand.
    Alias(Inner),
    /// What each distributed actor has.
    BuiltIn,
}

/// A member of a type.
#[derive(Debug, Drop)]
pub struct Member {
    pub name: Text,
    /// The labels with which it is called; none where it is not called.
    pub labels: Option<ArgLabels>,
    /// Whether it belongs to the type and not to its instances.
    pub is_static: bool,
    pub kind: MemberKind,
}

/// A type that a source declares.
#[derive(Drop)]
pub struct DeclaredType {
    pub name: Text,
    pub form: Form,
    pub members: Members,
}

/// An alias that a source declares beside its types.
#[derive(Debug, Drop)]
pub struct Alias {
    pub name: Text,
    /// The type that may stand after the alias.
    pub inner: Inner,
}

/// What a func is.
#[derive(Clone, Copy, Debug, PartialEq, Eq)]
pub enum FuncKind {
    /// A func of the file.
    TopLevel,
    /// A func of a type.
    Method,
    /// The getter of a computed property.
    Getter,
    /// An initialiser that the source writes.
    Initializer,
    /// An initialiser that a type has without writing it.
    Synthesized,
}

/// A func, a getter or an initialiser.
#[derive(Debug, Drop)]
pub struct DeclaredFunc {
    /// The type of which it is a member; none for a func of the file.
    pub owner: Option<TypeNo>,
    pub kind: FuncKind,
    /// Of an initialiser `init`.
    pub name: Text,
    pub labels: ArgLabels,
    /// Whether it belongs to the type and not to its instances.
    pub is_static: bool,
}

/// All that a source declares, each table in the order of the source.
///
/// The first type has the number 1 as a `TypeNo`, and the first func 0 as a `FuncNo`.
#[derive(Drop)]
pub struct Names {
    pub types: Types,
    pub aliases: Aliases,
    pub funcs: Funcs,
}
