//! `swda`: compiles a source file of Swift with distributed actors and runs the nodes of its program.
#![tactic(auto)]

mod command;
mod output;
mod reading;
mod status;
mod top;

use crate::command::{call, exit_code};
use std::process::ExitCode;
use sw_outside::{FileLoader, HostCommandLine, HostFiles, OutSink};

// The command line, the files and the output of the process. No clause can say what these are.
fn main(rt: HostRuntime) -> ExitCode {
    let mut loader = FileLoader::new(rt.alloc(), HostFiles::new(&rt));
    let mut sink = OutSink::new(rt.stdout());
    let status = call(
        rt.alloc(),
        &HostCommandLine::new(&rt),
        &mut loader,
        &mut sink,
    );
    exit_code(&status)
}

#[cfg(test)]
mod tests;
