//! Values.

use crate::shared::Shared;
use sqlite_items::Items;
use sw_base::{ActNo, ActorId, Duplicate, NoMemory, NodeNo, Text, TypeNo};

/// A list of values, which its copies share.
pub type Values = Shared<Items<Value>>;

/// A value. Its copies share what it is made of.
#[derive(Debug, Drop)]
pub enum Value {
    /// An integer of 64 bits.
    Int(i64),
    Bool(bool),
    /// A string.
    Str(Shared<Text>),
    /// An array.
    List(Shared<Items<Value>>),
    /// `nil`
    Absent,
    /// An optional that is there.
    Present(Shared<Value>),
    /// A struct, with its stored properties in the order of their declaration.
    Made {
        kind: TypeNo,
        parts: Shared<Items<Value>>,
    },
    /// A case of an enum by its number, with its payload.
    Case {
        kind: TypeNo,
        case_no: u8,
        parts: Shared<Items<Value>>,
    },
    /// A reference to a plain actor of the same node.
    Plain {
        kind: TypeNo,
        act: ActNo,
    },
    /// A reference to a distributed actor, on this node or another.
    Remote {
        kind: TypeNo,
        id: ActorId,
    },
    /// An identity.
    Id(ActorId),
    /// The actor system of a node, perhaps with the name of the next identity that it gives.
    System {
        node: NodeNo,
        name: Option<Text>,
    },
    /// What a func without a result gives.
    Void,
}

impl Duplicate for Value {
    fn copy(&self) -> Result<Value, NoMemory> {
        match self {
            Value::Int(n) => Ok(Value::Int(*n)),
            Value::Bool(b) => Ok(Value::Bool(*b)),
            Value::Str(text) => Ok(Value::Str(text.copy()?)),
            Value::List(items) => Ok(Value::List(items.copy()?)),
            Value::Absent => Ok(Value::Absent),
            Value::Present(value) => Ok(Value::Present(value.copy()?)),
            Value::Made { kind, parts } => Ok(Value::Made {
                kind: *kind,
                parts: parts.copy()?,
            }),
            Value::Case {
                kind,
                case_no,
                parts,
            } => Ok(Value::Case {
                kind: *kind,
                case_no: *case_no,
                parts: parts.copy()?,
            }),
            Value::Plain { kind, act } => Ok(Value::Plain {
                kind: *kind,
                act: *act,
            }),
            Value::Remote { kind, id } => Ok(Value::Remote {
                kind: *kind,
                id: id.copy()?,
            }),
            Value::Id(id) => Ok(Value::Id(id.copy()?)),
            Value::System { node, name } => Ok(Value::System {
                node: *node,
                name: name.copy()?,
            }),
            Value::Void => Ok(Value::Void),
        }
    }
}

// an array of a million elements has as many
const _: () = prove!(size_of::<Value>() == 32);

// Threads share values: this would be refused if they could not.
fn values_go_to_threads() {
    goes_to_threads::<Value>();
    goes_to_threads::<Values>();
}

fn goes_to_threads<T: Send + Sync>() {}
