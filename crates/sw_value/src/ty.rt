//! Types.

use sw_base::{Duplicate, Items, NoMemory, TypeNo};

/// What surrounds a type.
#[derive(Clone, Copy, Debug, PartialEq, Eq)]
pub enum Mark {
    /// `[T]`
    Array,
    /// `T?`
    Optional,
}

/// A type that no mark surrounds.
#[derive(Clone, Copy, Debug, PartialEq, Eq)]
pub enum Base {
    /// `Int`
    Int,
    /// `Bool`
    Bool,
    /// `String`
    Str,
    /// `Void`
    Void,
    /// `ActorID`
    Id,
    /// `NodeSystem`
    System,
    /// A declared struct.
    Struct(TypeNo),
    /// A declared enum.
    Enum(TypeNo),
    /// A declared plain actor.
    Plain(TypeNo),
    /// A declared distributed actor.
    Distributed(TypeNo),
    /// `any` of a declared protocol.
    Any(TypeNo),
    /// `any Error`
    AnyError,
}

/// A type: its marks, the outermost first, and the base that they surround.
///
/// `[Int?]` has the marks `Array` and `Optional` and the base `Int`. As each constructor of a type
/// takes one type, this is every type, and no type leads back to itself.
#[derive(Debug, PartialEq, Drop)]
pub struct Ty {
    pub marks: Items<Mark>,
    pub base: Base,
}

/// A list of types.
pub type Tys = Items<Ty>;

impl Duplicate for Mark {
    fn copy(&self) -> Result<Mark, NoMemory> {
        Ok(*self)
    }
}

impl Duplicate for Ty {
    fn copy(&self) -> Result<Ty, NoMemory> {
        Ok(Ty {
            marks: self.marks.copy()?,
            base: self.base,
        })
    }
}
