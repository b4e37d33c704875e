//! What a source declares, by name: its types with their members, its aliases, and its funcs.
#![tactic(auto)]

mod declaring;
mod facts;
mod few;
mod funcs;
mod labels;
mod member_table;
mod names;
mod own;
mod ranks;
mod spelling;
mod tables;
mod told;
mod words;

pub use declaring::declare;
pub use labels::{is_distributed, is_mutating, is_static, parameter_labels, payload_labels};
pub use member_table::Members;
pub use names::{
    Alias, DeclaredFunc, DeclaredType, Form, FuncKind, Inner, Member, MemberKind, Names,
};
pub use own::members_in;
pub use spelling::{spelled, spelled_call, spellings_tell};
pub use tables::{Aliases, Funcs, Types};
