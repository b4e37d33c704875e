//! A sink in memory, with a room reserved when it is made, some calls of which are to fail.

ghost use Rattle.std.specs.Prelude.{◌≡◌, ◌<◌, [], ◌∷◌, ◌++◌, length, IfOk, OnOk, OnErr};
ghost use Rattle.sw_outside.specs.MemSinkView.{Writes};

use crate::outside::{Failed, Sink};
use std::alloc::Global;
use std::marker::Model;
use sw_base::{Items, NoMemory};

/// A sink that keeps the bytes that it took, and tells them.
///
/// It takes what fits in its room. A write fails, and counts a fault, exactly where its call is to
/// fail or no room is left. Calls are counted from 1. The counts of calls and of faults stay at
/// 2^64 - 1.
#[derive(Debug, Drop)]
pub struct MemSink {
    room: usize,
    taken: Vec<u8>,
    failing: Items<u64>,
    calls: u64,
    faults: u64,
}

impl Model for MemSink {
    ghost use Rattle.std.specs.Prelude.{◌≤◌, length, vec_capacity};
    ghost use Rattle.sw_outside.specs.MemSinkView.{MemSinkView};

    ghost Value = { MemSinkView };

    ghost view = { λ sink. record {
      room = sink.room;
      taken = sink.taken.items;
      failing = sink.failing;
      calls = sink.calls;
      faults = sink.faults;
    } };

    // so no write wants memory
    ghost invariant = { λ sink. (sink.room ≤ vec_capacity sink.taken)
        × (length sink.taken.items ≤ sink.room) };
}

impl MemSink {
    /// A sink with room for so many bytes, that took none yet, and no call of which is to fail.
    /// The only error is want of memory for the room.
    pub fn new(alloc: Global, room: usize) -> Result<MemSink, NoMemory>
        ensures { IfOk result
            (λ sink. sink ≡ record { room = room; taken = []; failing = []; calls = 0; faults = 0 }) }
    {
        Ok(MemSink {
            room,
            taken: Vec::with_capacity(alloc, room)?,
            failing: Items::new(alloc),
            calls: 0,
            faults: 0,
        })
    }

    /// The call of this number, counted from 1, is to fail. The only error is want of memory, and
    /// leaves the sink as it was.
    pub fn fail_at(&mut self, call: u64) -> Result<(), NoMemory>
        ensures ok { OnOk result
            (self.new ≡ record self.old { failing = self.old.failing ++ call ∷ [] }) }
        ensures err { OnErr result (self.new ≡ self.old) }
    {
        self.failing.push(call)
    }

    /// The bytes taken so far, the oldest first.
    pub fn taken(&self) -> &[u8]
        ensures { result.now ≡ self.now.taken }
    {
        self.taken.as_slice()
    }
}

impl Sink for MemSink {
    ghost taken = { λ sink. sink.taken };

    ghost faults = { λ sink. sink.faults };

    fn write(&mut self, bytes: &[u8]) -> Result<usize, Failed>
        requires { 0 < length bytes.now }
        ensures exact { Writes self.old bytes.now self.new result }
    {
        let call = self.calls.saturating_add(1);
        let room = self.room - self.taken.len();
        self.calls = call;
        if self.failing.as_slice().contains(&call) || room == 0 {
            self.faults = self.faults.saturating_add(1);
            return Err(Failed);
        }
        let count = bytes.len().min(room);
        match self.taken.extend_from_slice(&bytes[..count]) {
            Ok(()) => Ok(count),
            Err(_) => unreachable!(),
        }
    }
}
