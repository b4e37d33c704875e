//! What stands between two words of a text.

/// What stands before a word.
#[derive(Clone, Copy, Debug, PartialEq, Eq)]
pub enum Gap {
    /// Nothing, and no other word: a text begins with it.
    Start,
    /// The end of a line.
    Line,
    /// One space.
    Space,
    /// Nothing: it touches the word before it.
    Joined,
}
