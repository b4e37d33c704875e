//! The rule of what protocols require: each struct and enum meets all requirements of the declared protocols after its `:`
//! (T2).
#![tactic(auto)]

mod lists;
mod met;
mod signatures;
mod unmet;

pub use unmet::report_unmet;
