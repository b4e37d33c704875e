//! Events, their labels, and what a run shows.

use sw_base::{Items, JobNo, NodeNo};

/// One atomic step of the world.
#[derive(Clone, Copy, Debug, PartialEq, Eq)]
pub enum Event {
    /// One turn of a job.
    Turn(JobNo),
}

/// A step of the meaning.
#[derive(Clone, Copy, Debug, PartialEq, Eq)]
pub enum Label {
    /// The job goes on to its next exit, or to just before its next statement once it began so many.
    Go(JobNo, u64),
}

/// An event with its labels, in order.
#[derive(Debug, PartialEq, Drop)]
pub struct Entry {
    pub event: Event,
    pub labels: Items<Label>,
}

/// How a root task has ended.
#[derive(Clone, Copy, Debug, PartialEq, Eq)]
pub enum TaskEnd {
    /// Its func has returned.
    Returned,
    /// It has not ended.
    Unfinished,
}

/// One beginning of a root task: its number in the plan, where it was begun, and how it has ended.
#[derive(Clone, Copy, Debug, PartialEq, Eq)]
pub struct TaskLine {
    pub task: u64,
    pub node: NodeNo,
    pub epoch: u32,
    pub end: TaskEnd,
}
