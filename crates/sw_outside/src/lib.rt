//! Where a program's texts come from and where its output goes: two traits, each with an
//! implementation over memory and one over readers or writers, and the gate of a pool of threads.
#![tactic(auto)]

mod command_line;
mod file_loader;
mod gate;
mod log;
mod mem_loader;
mod mem_sink;
mod opener;
mod out_sink;
mod outside;

pub use command_line::{CommandLine, HostCommandLine};
pub use file_loader::FileLoader;
pub use gate::Gate;
pub use mem_loader::MemLoader;
pub use mem_sink::MemSink;
pub use opener::{HostFiles, Opener, file_text, text_of};
pub use out_sink::OutSink;
pub use outside::{Failed, LoadError, Loader, Sink};
