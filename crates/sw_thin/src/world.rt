//! The world of one node and one root task: its job, what it printed, and all that happened.

ghost use Rattle.std.specs.Prelude.{◌≡◌, ◌<◌, ◌+◌, [], ◌∷◌, ◌++◌, Some, None, IfOk, OnOk, IsErrOf, MatchOption, vec_len, vec_capacity, length};
ghost use Rattle.sw_job.specs.Machine.{frame};
ghost use Rattle.sw_job.specs.declared.turn.Given.TheVariants.{Nothing};
ghost use Rattle.sw_thin.specs.World.{next_job, printed_line, with_line, turn_entry};
ghost use Rattle.sw_thin.specs.declared.history.Event.TheVariants.{Turn};

use crate::history::{Entry, Event, Label, TaskEnd, TaskLine};
use crate::machine::run_job;
use std::alloc::{AllocError, Global};
use std::marker::Model;
use std::mem;
use sw_base::{FuncNo, Items, JobNo, NoMemory, NodeNo, Stack, Text, Texts};
use sw_job::{Ask, Code, Exit, Frame, Frames, Given, TrapKind, TurnEnd, TurnStart, Value};

/// How many statements a turn begins at most.
const SLICE: u64 = 1000;

/// Why an event did not come.
#[derive(Clone, Copy, Debug, PartialEq, Eq)]
pub enum StepRefusal {
    /// The event is not enabled. The world is as before.
    NotEnabled,
    /// Memory was wanted. The job is lost, and the world is only dropped.
    NoMemory,
}

impl From<AllocError> for StepRefusal {
    ghost use Rattle.sw_thin.specs.declared.world.StepRefusal.TheVariants.{NoMemory};

    ghost from_gives = { λ _ e. e ≡ NoMemory };

    fn from(_: AllocError) -> StepRefusal {
        StepRefusal::NoMemory
    }
}

impl From<NoMemory> for StepRefusal {
    ghost use Rattle.sw_thin.specs.declared.world.StepRefusal.TheVariants.{NoMemory};

    ghost from_gives = { λ _ e. e ≡ NoMemory };

    fn from(_: NoMemory) -> StepRefusal {
        StepRefusal::NoMemory
    }
}

/// The job of the root task.
#[derive(Debug, Drop)]
pub enum Job {
    /// Its next turn starts from here.
    Ready(TurnStart),
    /// Its func has returned.
    Ended,
    /// A trap has ended the run.
    Trapped(TrapKind),
    /// Memory was wanted in its turn.
    Lost,
}

/// A world whose history is legal for every program that its code carries, unless its job was lost.
#[derive(Debug, Drop)]
pub struct World {
    alloc: Global,
    code: Code,
    main: FuncNo,
    job: Job,
    log: Texts,
    begun: u64,
    history: Vec<Entry>,
}

impl Model for World {
    ghost use Rattle.sw_thin.specs.World.{WorldState, IsSound};

    ghost Value = { WorldState };

    ghost view = { λ w. record { code = w.code; main = w.main.0; job = w.job; log = w.log; begun = w.begun; history = w.history.items } };

    ghost invariant = { λ w. IsSound (record { code = w.code; main = w.main.0; job = w.job; log = w.log; begun = w.begun; history = w.history.items }) };
}

// Puts an item where there is room for it.
fn push_reserved<T: Drop>(items: &mut Vec<T>, item: T)
    requires { vec_len items.old < vec_capacity items.old }
    ensures { items.new.items ≡ items.old.items ++ item ∷ [] }
{
    match items.push(item) {
        Ok(()) => {}
        Err(_) => unreachable!(),
    }
}

// The frames of a func that begins.
fn entry_frames(alloc: Global, func: FuncNo) -> Result<Frames, NoMemory>
    ensures { IfOk result (λ frames. frames ≡ frame func.0 0 [] ∷ []) }
{
    let mut frames = Stack::new(alloc);
    frames.push(Frame {
        func,
        address: 0,
        operands: Stack::new(alloc),
    })?;
    Ok(frames)
}

// The entry of a turn: the job went on until it had begun so many statements.
fn turn_entry(alloc: Global, job: JobNo, begun: u64) -> Result<Entry, NoMemory>
    ensures { IfOk result (λ entry. entry ≡ turn_entry job begun) }
{
    let mut labels = Items::new(alloc);
    labels.push(Label::Go(job, u64::max(1, begun)))?;
    Ok(Entry {
        event: Event::Turn(job),
        labels,
    })
}

// What a turn leaves by its exit: the job, and the line that is to be printed, if any.
fn left_by(exit: Exit, frames: Frames) -> (Job, Option<Text>)
    ensures job { result.0 ≡ next_job exit frames }
    ensures line { result.1 ≡ printed_line exit }
{
    match exit {
        Exit::Ask(Ask::Print(line)) => {
            let given = Given::Value(Value::Void);
            (Job::Ready(TurnStart { frames, given }), Some(line))
        }
        Exit::Return(_) => (Job::Ended, None),
        Exit::Trap(kind) => (Job::Trapped(kind), None),
        Exit::Slice => {
            let given = Given::Nothing;
            (Job::Ready(TurnStart { frames, given }), None)
        }
    }
}

// Adds a line to a log, if there is one.
fn append_line(log: &mut Texts, line: Option<Text>) -> Result<(), NoMemory>
    ensures { OnOk result (log.new ≡ with_line log.old line) }
{
    match line {
        None => Ok(()),
        Some(line) => log.push(line),
    }
}

impl World {
    ghost use Rattle.sw_thin.specs.World.{WorldState, IsAtEnd, IsEnabled, is_ready, IsLegalForAll, IsLost, Steps, job_ahead, the_task, trap_of};

    /// A world in which nothing has happened yet. Its root task is a func of the code.
    pub fn new(alloc: Global, code: Code, main: FuncNo) -> Result<World, NoMemory>
        requires { main.0 < length code }
        ensures { IfOk result (λ w. w ≡ record { code = code; main = main.0; job = Job.Ready (record { frames = frame main.0 0 [] ∷ []; given = Nothing }); log = []; begun = 0; history = [] }) }
    {
        let frames = entry_frames(alloc, main)?;
        let Some(func) = code.func(main) else {
            unreachable!()
        };
        // For its clause: a length is a `usize`, and the statements of a run are at most the instructions.
        let _ = func.instrs.len();
        Ok(World {
            alloc,
            code,
            main,
            job: Job::Ready(TurnStart {
                frames,
                given: Given::Nothing,
            }),
            log: Items::new(alloc),
            begun: 0,
            history: Vec::new(alloc),
        })
    }

    fn is_ready(&self) -> bool
        ensures { result ≡ is_ready self.now.job }
    {
        matches!(self.job, Job::Ready(_))
    }

    /// One event. `NotEnabled` comes exactly where the event is not enabled.
    pub fn step(&mut self, event: Event) -> Result<(), StepRefusal>
        ensures ok { OnOk result (Steps self.old event self.new) }
        ensures enabled { OnOk result (IsEnabled self.old event) }
        ensures refused { IsErrOf result StepRefusal.NotEnabled → ¬ IsEnabled self.old event }
        ensures unchanged { IsErrOf result StepRefusal.NotEnabled → self.new ≡ self.old }
    {
        match event {
            Event::Turn(job) => self.turn(job),
        }
    }

    fn turn(&mut self, job: JobNo) -> Result<(), StepRefusal>
        ensures ok { OnOk result (Steps self.old (Turn job) self.new) }
        ensures enabled { OnOk result (IsEnabled self.old (Turn job)) }
        ensures refused { IsErrOf result StepRefusal.NotEnabled → ¬ IsEnabled self.old (Turn job) }
        ensures unchanged { IsErrOf result StepRefusal.NotEnabled → self.new ≡ self.old }
    {
        if job.0 != 0 || !self.is_ready() {
            return Err(StepRefusal::NotEnabled);
        }
        let Job::Ready(start) = mem::replace(&mut self.job, Job::Lost) else {
            unreachable!()
        };
        let TurnEnd {
            exit,
            frames,
            begun,
        } = run_job(self.alloc, &self.code, start, SLICE)?;
        let entry = turn_entry(self.alloc, job, begun)?;
        self.history.reserve(1)?;
        let (left, line) = left_by(exit, frames);
        append_line(&mut self.log, line)?;
        push_reserved(&mut self.history, entry);
        self.begun += begun;
        self.job = left;
        Ok(())
    }

    /// The driver's next event: the turn of the one job, while it is ready.
    pub fn next_event(&self) -> Option<Event>
        ensures { MatchOption result (IsAtEnd self.now.job) (λ event. IsEnabled self.now event) }
    {
        match &self.job {
            Job::Ready(_) => Some(Event::Turn(JobNo(0))),
            Job::Ended | Job::Trapped(_) | Job::Lost => None,
        }
    }

    /// Does the driver's events, one after the other, up to where none is next.
    pub fn drive(&mut self) -> Result<(), NoMemory>
        requires { ¬ IsLost self.old.job }
        ensures code { OnOk result (self.new.code ≡ self.old.code) }
        ensures main { OnOk result (self.new.main ≡ self.old.main) }
        ensures there { OnOk result (¬ IsLost self.new.job) }
        ensures ends { OnOk result (IsAtEnd self.new.job) }
    {
        while let Some(event) = self.next_event() {
            match self.step(event) {
                Ok(()) => {}
                Err(StepRefusal::NoMemory) => return Err(NoMemory),
                Err(StepRefusal::NotEnabled) => unreachable!(),
            }
        }
        Ok(())
    }

    /// The trap that has ended the run; none where none has.
    pub fn trap(&self) -> Option<TrapKind>
        ensures { result ≡ trap_of self.now.job }
    {
        match &self.job {
            Job::Trapped(kind) => Some(*kind),
            Job::Ready(_) | Job::Ended | Job::Lost => None,
        }
    }

    /// The statements begun.
    pub fn begun(&self) -> u64
        ensures { result ≡ self.now.begun }
    {
        self.begun
    }

    /// The lines printed, the first one first.
    pub fn log(&self) -> &[Text]
        ensures { result.now ≡ self.now.log }
    {
        self.log.as_slice()
    }

    /// The root task, as it has ended so far.
    pub fn task(&self) -> TaskLine
        ensures { result ≡ the_task self.now.job }
    {
        TaskLine {
            task: 0,
            node: NodeNo(0),
            epoch: 0,
            end: match &self.job {
                Job::Ended => TaskEnd::Returned,
                Job::Ready(_) | Job::Trapped(_) | Job::Lost => TaskEnd::Unfinished,
            },
        }
    }

    /// The events with their labels, the first one first. They are a legal history of every program that
    /// the code carries, where the job is not lost.
    pub fn history(&self) -> &[Entry]
        ensures value { result.now ≡ self.now.history }
        ensures legal { ¬ IsLost self.now.job → IsLegalForAll self.now }
    {
        self.history.as_slice()
    }
}
