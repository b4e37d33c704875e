//! The entries of the table of declared types.

use sw_base::{ArgLabels, Items, Text, TypeNo};
use sw_declared::Form;
use sw_tree::Binding;
use sw_value::Ty;

/// The type that a property is declared with.
#[derive(Drop)]
pub enum WrittenType {
    /// No type is written.
    Absent,
    /// What is written is no type.
    NoType,
    Known(Ty),
}

/// A stored property.
#[derive(Drop)]
pub struct Property {
    pub name: Text,
    pub binding: Binding,
    /// Whether it belongs to the type and not to its instances.
    pub is_static: bool,
    pub declared: WrittenType,
    /// Whether it has an initial value.
    pub has_initial: bool,
}

/// A case of an enum.
#[derive(Drop)]
pub struct CaseEntry {
    pub name: Text,
    /// The labels of the parts of its payload, in order.
    pub labels: ArgLabels,
    /// The types of these parts; none where what is written is no type.
    pub types: Items<Option<Ty>>,
}

/// A func that a protocol requires.
#[derive(Drop)]
pub struct Signature {
    pub name: Text,
    /// The labels with which it is called, in the order of its parameters.
    pub labels: ArgLabels,
    /// The types of its parameters; none where what is written is no type.
    pub types: Items<Option<Ty>>,
    /// The type of its result, `Void` where none is written; none where what is written is no type.
    pub result: Option<Ty>,
    pub is_static: bool,
    pub is_mutating: bool,
    pub is_async: bool,
    pub throws: bool,
}

/// A requirement of a protocol.
#[derive(Drop)]
pub enum Requirement {
    Func(Signature),
    /// A property and its type; none where what is written is no type.
    Property(Text, Option<Ty>),
}

/// A declared type.
#[derive(Drop)]
pub struct TypeEntry {
    pub name: Text,
    pub form: Form,
    /// The stored properties, in the order of the source.
    pub properties: Items<Property>,
    /// The cases of an enum, in the order of the source.
    pub cases: Items<CaseEntry>,
    /// The requirements of a protocol, in the order of the source.
    pub requirements: Items<Requirement>,
    /// The declared protocols after its `:`, in the order of the source.
    pub protocols: Items<TypeNo>,
    /// Whether `Codable` stands after its `:`.
    pub is_codable: bool,
    /// Whether `Equatable` or `Hashable` does.
    pub is_equatable: bool,
    /// Whether `Error` does.
    pub is_error: bool,
}
