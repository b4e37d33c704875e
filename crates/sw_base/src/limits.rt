//! The limits that a source keeps.

/// The most bytes that a source may have.
pub const LONGEST_SOURCE: usize = 1_048_576;

/// The greatest integer.
pub const GREATEST_INTEGER: u64 = 9_223_372_036_854_775_807;
