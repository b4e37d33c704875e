//! Thin trees: the syntax trees that are served so far, what they mean, and the run of one as the only root task.
//!
//! A thin tree has one func `main`, whose statements declare variables by sums of integers and print sums, variables
//! and texts. `thin_body` gives the body of its `main`; `run_main` lowers a body to code, drives the world of its one
//! task to its end and gives the report. The definitions stand in `specs/`: the statements of a body (`Program`, and
//! `ProgramView` for the values of the code), which syntax trees are thin (`Thin`, `ShortestText`), what a body means
//! (`Meaning`, `State`), which histories are kept and which event is next (`History`), and what a report says
//! (`ReportText`, `Reports`). `Lowering`, `Drafts`, `Carries`, `TreeReading`, `Turn` and `World` are for the contracts of
//! private functions alone.
#![tactic(auto)]

mod history;
mod lowering;
mod machine;
mod main_body;
mod names;
mod program;
mod report_lines;
mod run;
mod world;

pub use main_body::thin_body;
pub use program::{Expr, Stmt};
pub use run::run_main;
