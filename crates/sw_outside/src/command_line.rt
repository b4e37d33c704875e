//! Where the words of a call come from.

ghost use Rattle.std.specs.Prelude.{ℕ, List, Option, None, IfSome};
ghost use Rattle.std.specs.Io.{WritesAtMost};
ghost use Rattle.sw_outside.specs.Words.{Fills};

use std::env::{Env, FillError};

/// A command line: words, which need not be UTF-8, each under its number. Word 0 is the program's name.
pub trait CommandLine {
    /// The words, where the command line tells them; none where it does not tell.
    ghost words: { Self → Option (List (List ℕ)) };

    /// Copies the word of this number to the start of the buffer, and answers its length.
    ///
    /// `NotPresent` says that there are no more words, and `TooLong` that the word is longer than the buffer.
    fn word(&self, number: usize, buffer: &mut [u8]) -> Result<usize, FillError>
        ensures within { WritesAtMost result buffer.new }
        ensures fills { IfSome (words self.now) (λ words. Fills words number buffer.new result) };
}

/// The command line of the process. It tells nothing of its words.
#[derive(Drop)]
pub struct HostCommandLine<'a, R: Env> {
    rt: &'a R,
}

impl<'a, R: Env> HostCommandLine<'a, R> {
    /// The command line that this runtime reads.
    pub fn new(rt: &'a R) -> HostCommandLine<'a, R> {
        HostCommandLine { rt }
    }
}

impl<R: Env> CommandLine for HostCommandLine<'_, R> {
    ghost words = { λ _. None };

    fn word(&self, number: usize, buffer: &mut [u8]) -> Result<usize, FillError> {
        self.rt.arg(number, buffer)
    }
}
