//! The way from the words of a command line to the top call, and from its status to the exit code.

ghost use Rattle.std.specs.Prelude.{◌≡◌, ℕ, List, drop, slice_get, IfOk, IfSome};
ghost use Rattle.std.specs.Process.{exit_status};
ghost use Rattle.swda.specs.Answered.{Answered};
ghost use Rattle.swda.specs.ExitCodes.{code_of};

use crate::status::Status;
use crate::top::swda;
use std::alloc::Global;
use std::env::FillError;
use std::process::ExitCode;
use sw_base::{Items, NoMemory, Text, Texts};
use sw_outside::{CommandLine, Loader, Sink};

/// The length of a word that fits at the first try.
const FIRST_LENGTH: usize = 256;

/// The word of this number, which need not be UTF-8; none past the last word.
fn word<C: CommandLine>(alloc: Global, line: &C, number: usize) -> Result<Option<Text>, NoMemory>
    ensures { IfOk result (λ word. IfSome (C.words line.now) (λ words. word ≡ slice_get words number)) }
{
    let mut buffer = vec![in alloc; 0u8; FIRST_LENGTH]?;
    for _ in 0..usize::BITS {
        match line.word(number, buffer.as_mut_slice()) {
            Ok(length) => return Ok(Some(Text::from_bytes(alloc, &buffer[..length])?)),
            Err(FillError::NotPresent) => return Ok(None),
            Err(FillError::TooLong) => buffer.resize(buffer.len().saturating_mul(2), 0)?,
        }
    }
    Err(NoMemory)
}

/// The words of the command line, without the program's name.
fn words<C: CommandLine>(alloc: Global, line: &C) -> Result<Texts, NoMemory>
    ensures { IfOk result (λ given. IfSome (C.words line.now) (λ words. given ≡ drop 1 words)) }
{
    let mut words = Items::new(alloc);
    for number in 1..usize::MAX {
        let Some(word) = word(alloc, line, number)? else {
            return Ok(words);
        };
        words.push(word)?;
    }
    Err(NoMemory)
}

/// The status of the top call that a command line makes.
///
/// Its words are those of the command line, without the program's name. Want of memory for them is a status too.
pub fn call<C: CommandLine, L: Loader, S: Sink>(
    alloc: Global,
    line: &C,
    loader: &mut L,
    sink: &mut S,
) -> Status
    ensures { (words : List (List ℕ)) × IfSome (C.words line.now) (λ all. words ≡ drop 1 all) × Answered (record {
      words = words;
      before = record { holds = L.holds loader.old; asked = L.asked loader.old; given = L.given loader.old; faults = L.faults loader.old };
      after = record { holds = L.holds loader.new; asked = L.asked loader.new; given = L.given loader.new; faults = L.faults loader.new };
    })
        (record {
          before = record { taken = S.taken sink.old; faults = S.faults sink.old };
          after = record { taken = S.taken sink.new; faults = S.faults sink.new };
        }) result }
{
    match words(alloc, line) {
        Ok(words) => swda(alloc, words.as_slice(), loader, sink),
        Err(NoMemory) => Status::WantOfMemory,
    }
}

/// The exit code of the program: the number of the status.
pub fn exit_code(status: &Status) -> ExitCode
    ensures { exit_status result ≡ code_of status.now }
{
    ExitCode::from(status.code())
}
