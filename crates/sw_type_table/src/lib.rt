//! Which types a source declares, and which type each of their parts is declared with.
#![tactic(auto)]

mod conformances;
mod entry;
mod finding;
mod marks;
mod properties;
mod requirements;
mod table;

pub use entry::{CaseEntry, Property, Requirement, Signature, TypeEntry, WrittenType};
pub use finding::named_base;
pub use marks::written;
pub use requirements::signature;
pub use table::type_table;
