//! The types of expressions, apart from the expressions: what is known of types, what places need, which values are
//! converted, and which operators have a meaning.
#![tactic(auto)]

mod convert;
mod facts;
mod known;
mod need;
mod needs;
mod operators;
mod types;

pub use convert::{concluded, converts, fitted, is_unfit};
pub use facts::{Facts, TypeFacts};
pub use known::{base_members, conforms, is_equatable, is_printable, members};
pub use need::Need;
pub use needs::{
    element_wanted, first_branch, first_element, implicit_wanted, index_need, is_lost,
    less_optional, like, needing, nil_wanted, other_element, second_branch, wanted, within_try,
};
pub use operators::{
    coalescing_of, is_incomparable, is_meaningless, is_meaningless_sign, operation_type,
    operator_type, signed_type,
};
pub use types::{
    MOST_MARKS, array, bare, element, is_array, is_optional, optional, same_type, stripped, wrapped,
};
