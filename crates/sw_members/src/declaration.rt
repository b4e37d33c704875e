//! What a name may mean.

use sw_base::{ArgLabels, Items, Text};
use sw_typed::Entity;
use sw_value::Ty;

/// A property, case, func or initialiser, as a use of it sees it.
///
/// A type is none where the source gives none, or where what it writes is no type.
#[derive(Debug, Drop)]
pub struct Declaration {
    /// Of an initialiser `init`.
    pub name: Text,
    /// The labels with which it is called; none where it stands as a value.
    pub labels: Option<ArgLabels>,
    /// Whether it belongs to the type and not to its instances.
    pub is_static: bool,
    pub entity: Entity,
    /// The types of its parameters, in order.
    pub takes: Items<Option<Ty>>,
    /// The type of its value, or of what it returns.
    pub gives: Option<Ty>,
    /// Whether it is a func that may change the value on which it is used.
    pub is_mutating: bool,
    /// Whether it is a stored property that may be assigned.
    pub is_var: bool,
}

/// Which declarations of a type a use may mean.
#[derive(Clone, Copy, Debug, PartialEq, Eq)]
pub enum Side {
    Both,
    /// Those of the type.
    Static,
    /// Those of its instances.
    Instance,
}
