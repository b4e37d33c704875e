//! What names mean where an expression stands: which variable, member, func or type, and on what a member is used.
#![tactic(auto)]

mod callee;
mod calling;
mod changes;
mod naming;
mod scope;
mod standing;

pub use callee::{Called, Callee};
pub use calling::{called_member, called_name, called_value};
pub use changes::is_variable;
pub use naming::{member, named};
pub use scope::Scope;
pub use standing::Standing;
