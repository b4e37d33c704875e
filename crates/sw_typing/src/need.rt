//! What places need.

use sw_value::Ty;

/// What a place needs of the type of an expression.
#[derive(Debug, Drop)]
pub enum Need {
    /// None is needed.
    Free,
    /// One is needed that is not there, so that its want breaks no rule.
    Lost,
    /// None is needed. `nil`, `[]` and `.name` take this one, which is the other operand's.
    Like(Ty),
    /// This one, to which a value may be converted.
    Needed(Ty),
}
