//! The rules of declared types that ask no type of a property: what stands after a `:` (T1, and T6 by the form of the
//! type), protocols as types (T7), counts (T8), and forms that are left out (T9).
#![tactic(auto)]

mod conformances;
mod counts;
mod declaration;
mod forms;
mod protocols;
mod statements;
mod written_types;

pub use declaration::report_declaration;
