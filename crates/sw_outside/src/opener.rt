//! What opens files, and the text of a file that is open.

ghost use Rattle.std.specs.Prelude.{◌≡◌, ◌≤◌, ℕ, List, length, Option, None, Ok, Err, IfOk, IfErr, IfSome, OnOk, IsUtf8};
ghost use Rattle.std.specs.IoError.{error_kind};
ghost use Rattle.sw_outside.specs.declared.outside.LoadError.TheVariants.{Failed};
ghost use Rattle.sw_outside.specs.Files.{largest, cause_of};

use crate::outside::LoadError;
use std::alloc::Global;
use std::io::{ErrorKind, Read};
use std::rt::Files;
use std::{fs, io, str};
use sw_base::Text;

/// The greatest length of a file, in bytes.
const LARGEST: u64 = 1_073_741_824;

/// What opens a file to be read.
pub trait Opener {
    /// An open file.
    type File: Read + Drop;

    /// The bytes of the file of this path, where the opener tells them; none where it does not tell.
    ghost contents: { Self → List ℕ → Option (List ℕ) };

    /// The file of this path, open at its first byte.
    fn open(&self, path: &str) -> io::Result<Self::File>
        ensures { IfOk result (λ file. IfSome (contents self.now path.now)
            (λ bytes. Self.File.remaining file ≡ Some bytes)) };
}

/// Opens the files of the process. It tells nothing of what a file holds.
#[derive(Drop)]
pub struct HostFiles<'a, R: Files> {
    rt: &'a R,
}

impl<'a, R: Files> HostFiles<'a, R> {
    /// The files that this runtime opens.
    pub fn new(rt: &'a R) -> HostFiles<'a, R> {
        HostFiles { rt }
    }
}

impl<R: Files> Opener for HostFiles<'_, R> {
    type File = R::File;

    ghost contents = { λ _ path. None };

    fn open(&self, path: &str) -> io::Result<R::File> {
        fs::open(self.rt, path)
    }
}

fn cause(error: &io::Error) -> LoadError
    ensures { result ≡ cause_of (error_kind error.now) }
{
    match error.kind() {
        ErrorKind::OutOfMemory => LoadError::NoMemory,
        _ => LoadError::Failed,
    }
}

// All that a reader has left, unless that is too long.
fn read_whole<R: Read + Drop>(alloc: Global, reader: R) -> io::Result<Vec<u8>>
    ensures whole { IfOk result (λ bytes. IfSome (R.remaining reader) (λ left. bytes.items ≡ left)) }
    ensures short { IfOk result (λ bytes. length bytes.items ≤ largest) }
{
    let mut bytes = Vec::new(alloc);
    // one byte more than may be there shows that a file is too long
    reader.take(LARGEST + 1).read_to_end(&mut bytes)?;
    if bytes.len() as u64 > LARGEST {
        return Err(io::Error::from(ErrorKind::FileTooLarge));
    }
    Ok(bytes)
}

/// The text of a file that was to be opened: all that its reader has left.
///
/// It fails where the file could not be opened or read to its end, and where it is longer than
/// 1,073,741,824 bytes. An error of the opening is told as want of memory exactly where it says so.
pub fn text_of<R: Read + Drop>(alloc: Global, opened: io::Result<R>) -> Result<Text, LoadError>
    ensures whole { IfOk opened (λ reader. IfOk result
        (λ text. IfSome (R.remaining reader) (λ left. text ≡ left))) }
    ensures short { IfOk result (λ text. length text ≤ largest) }
    ensures not_opened { IfErr opened (λ error. result ≡ Err (cause_of (error_kind error))) }
{
    let reader = match opened {
        Ok(reader) => reader,
        Err(error) => return Err(cause(&error)),
    };
    match read_whole(alloc, reader) {
        Ok(bytes) => Ok(Text::from_vec(alloc, bytes)?),
        Err(error) => Err(cause(&error)),
    }
}

/// The text of the file of this path. A path that is no UTF-8 is a fault, and opens nothing.
pub fn file_text<O: Opener>(alloc: Global, opener: &O, path: &[u8]) -> Result<Text, LoadError>
    ensures whole { IfOk result (λ text. IfSome (O.contents opener.now path.now) (λ held. text ≡ held)) }
    ensures short { IfOk result (λ text. length text ≤ largest) }
    ensures utf8 { OnOk result (IsUtf8 path.now) }
    ensures not_utf8 { ¬ (IsUtf8 path.now) → result ≡ Err Failed }
{
    let Ok(path) = str::from_utf8(path) else {
        return Err(LoadError::Failed);
    };
    text_of(alloc, opener.open(path))
}
