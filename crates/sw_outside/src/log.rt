//! What has passed a loader or a sink, kept for proofs alone.
//!
//! A log takes no memory, and its functions do nothing when they run. Nothing ties what it lists to memory, so a
//! clause about a log bounds only code that reads it through the ghost members `given` and `taken` of a generic
//! loader or sink. That is the one use of these types.

ghost use Rattle.std.specs.Prelude.{◌≡◌, ℕ, List, [], ◌∷◌, ◌++◌};
ghost use Rattle.std.specs.Borrow.{ftrue};

use std::marker::Model;

/// The texts that were given so far, each after its name, the oldest first. A clause reads them as `entries`.
#[derive(Debug, Drop)]
pub struct TextLog {
    pub ghost entries: { List (List ℕ × List ℕ) },
}

impl Model for TextLog {
    ghost also_owns = { λ _. ftrue };
}

impl TextLog {
    /// A log of no text.
    pub fn new() -> TextLog
        ensures { result.entries ≡ [] }
    {
        TextLog {}
    }

    /// Lists one text more, after its name.
    pub fn push(&mut self, _name: &[u8], _text: &[u8])
        ensures { self.new.entries ≡ self.old.entries ++ (_name.now, _text.now) ∷ [] }
    {}
}

/// The bytes that were taken so far, the oldest first. A clause reads them as `bytes`.
#[derive(Debug, Drop)]
pub struct ByteLog {
    pub ghost bytes: { List ℕ },
}

impl Model for ByteLog {
    ghost also_owns = { λ _. ftrue };
}

impl ByteLog {
    /// A log of no byte.
    pub fn new() -> ByteLog
        ensures { result.bytes ≡ [] }
    {
        ByteLog {}
    }

    /// Lists these bytes too.
    pub fn push(&mut self, _more: &[u8])
        ensures { self.new.bytes ≡ self.old.bytes ++ _more.now }
    {}
}
