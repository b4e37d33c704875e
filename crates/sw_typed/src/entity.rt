//! What a name, a member or a call names.

use sw_base::{FuncNo, TypeNo};
use sw_tree::Binding;

/// What a name, a member or a call names.
#[derive(Clone, Copy, Debug, PartialEq, Eq)]
pub enum Entity {
    /// A func of the file, or one of a type.
    Func(FuncNo),
    /// An initialiser, which the source may not write.
    Initializer(FuncNo),
    /// A computed property, as its getter.
    Getter(FuncNo),
    /// A stored property: its type, its number among the stored properties of the type, from 0, and whether it is bound
    /// for good.
    Stored(TypeNo, u32, Binding),
    /// A case: its enum, and its number among the cases of the enum, from 0.
    Case(TypeNo, u32),
    /// A requirement: its protocol, and its number there, from 0.
    Requirement(TypeNo, u32),
    BuiltIn(BuiltIn),
}

/// What the language has without a declaration.
#[derive(Clone, Copy, Debug, PartialEq, Eq)]
pub enum BuiltIn {
    /// `print(_:)`
    Print,
    /// `Int.max`
    GreatestInt,
    /// `Int.min`
    LeastInt,
    /// `count` of an array
    Count,
    /// `isEmpty` of an array
    ArrayIsEmpty,
    /// `append(_:)` of an array
    Append,
    /// `isEmpty` of a string
    StringIsEmpty,
    /// `ActorID(node:name:)`
    ActorId,
    /// `node` of an actor system
    Node,
    /// `named(_:)` of an actor system
    Named,
    /// `resignID(_:)` of an actor system
    ResignId,
    /// `id` of a distributed actor
    Id,
    /// `actorSystem` of a distributed actor
    ActorSystem,
    /// `resolve(id:using:)` of a distributed actor's type
    Resolve(TypeNo),
}
