//! Names in sight: what the events of a part of a source do to them, and the rules that it breaks by its names.
#![tactic(auto)]

mod around;
mod laws;
mod seen;

pub use around::Around;
pub use laws::walks_find_what_is_broken;
pub use seen::{Seen, bind, close, name_inner, name_type, open, read, read_self};
