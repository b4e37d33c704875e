//! A variable.

use sw_base::Text;
use sw_typed::Variable;
use sw_value::Ty;

/// A variable or parameter that is in sight.
#[derive(Debug, Drop)]
pub struct Local {
    pub name: Text,
    pub variable: Variable,
    /// None where it has no type, since its initial value has none.
    pub ty: Option<Ty>,
}
