//! Where a pool of threads can be stopped from outside.

/// Where the threads of a pool pass at each turn of a job, so that a test can hold one back.
///
/// No contract depends on a gate: it sees numbers of turns alone and may do as it likes with them.
pub trait Gate {
    /// Passed by the thread that has taken up the turn of this number, before the turn's work.
    fn before_work(&self, turn: u64);

    /// Passed by the same thread once what the turn did stands in the book.
    fn after_commit(&self, turn: u64);
}
