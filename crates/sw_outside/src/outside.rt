//! A loader of named texts and a sink of bytes.

ghost use Rattle.std.specs.Prelude.{◌≡◌, ℕ, ◌<◌, ◌≤◌, List, length, Option, IfOk, IfSome};
ghost use Rattle.sw_outside.specs.declared.outside.LoadError.TheVariants.{NoMemory};
ghost use Rattle.sw_outside.specs.Causes.{Asks, Gives, LoadCause, WriteCause, after_write};

use std::error::Error;
use std::fmt;
use sw_base::Text;

/// Why a load gave no text.
#[derive(Clone, Copy, Debug, PartialEq, Eq)]
pub enum LoadError {
    /// The loader has no text of that name, or reading it failed. The count of faults rose.
    Failed,
    /// Want of memory.
    NoMemory,
}

impl fmt::Display for LoadError {
    fn fmt<W: fmt::Write>(&self, f: &mut fmt::Formatter<W>) -> fmt::Result {
        match self {
            LoadError::Failed => write!(f, "the load failed"),
            LoadError::NoMemory => write!(f, "out of memory"),
        }
    }
}

impl Error for LoadError {}

impl From<sw_base::NoMemory> for LoadError {
    ghost from_gives = { λ _ e. e ≡ NoMemory };

    fn from(_: sw_base::NoMemory) -> LoadError {
        LoadError::NoMemory
    }
}

/// A write took nothing. The count of faults rose.
#[derive(Clone, Copy, Debug, PartialEq, Eq)]
pub struct Failed;

impl fmt::Display for Failed {
    fn fmt<W: fmt::Write>(&self, f: &mut fmt::Formatter<W>) -> fmt::Result {
        write!(f, "the write failed")
    }
}

impl Error for Failed {}

/// Where texts come from, each by its name.
pub trait Loader {
    /// What a name holds, where the loader tells it; none where it does not tell.
    ghost holds: { Self → List ℕ → Option (List ℕ) };

    /// The names asked so far, the oldest first.
    ghost asked: { Self → List (List ℕ) };

    /// The texts given so far, each after its name, the oldest first.
    ghost given: { Self → List (List ℕ × List ℕ) };

    /// The number of faults so far, which stays at its greatest value, 2^64 - 1.
    ghost faults: { Self → ℕ };

    /// The whole text of that name, which is then listed as given.
    ///
    /// It fails only where the count of faults rose, or stands at its greatest value; otherwise the
    /// count stays as it was. Want of memory asks no name.
    fn load(&mut self, name: &Text) -> Result<Text, LoadError>
        ensures text { IfOk result
            (λ text. IfSome (holds self.old name.now) (λ held. text ≡ held)) }
        ensures keeps { (n : List ℕ) → holds self.new n ≡ holds self.old n }
        ensures asks { Asks (asked self.old) name.now (asked self.new) result }
        ensures gives { Gives (given self.old) name.now (given self.new) result }
        ensures cause { LoadCause (faults self.old) (faults self.new) result };
}

/// Where output goes.
pub trait Sink {
    /// The bytes taken so far, the oldest first.
    ghost taken: { Self → List ℕ };

    /// The number of faults so far, which stays at its greatest value, 2^64 - 1.
    ghost faults: { Self → ℕ };

    /// Takes some of the bytes from the start, at least one, and answers how many.
    ///
    /// It fails only where the count of faults rose, or stands at its greatest value, and then
    /// takes none; otherwise the count stays as it was.
    fn write(&mut self, bytes: &[u8]) -> Result<usize, Failed>
        requires { 0 < length bytes.now }
        ensures some { IfOk result (λ count. 0 < count) }
        ensures within { IfOk result (λ count. count ≤ length bytes.now) }
        ensures bytes { taken self.new ≡ after_write (taken self.old) bytes.now result }
        ensures cause { WriteCause (faults self.old) (faults self.new) result };
}
