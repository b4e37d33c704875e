//! A loader over named texts in memory, some calls of which are to fail.

ghost use Rattle.std.specs.Prelude.{◌≡◌, [], ◌∷◌, ◌++◌, OnOk, OnErr};
ghost use Rattle.std.specs.Option.{option_copied};
ghost use Rattle.sw_outside.specs.MemLoaderView.{held_at, Loads};
ghost use Rattle.sw_outside.specs.Counts.{is_in};

use crate::log::TextLog;
use crate::outside::{LoadError, Loader};
use std::alloc::Global;
use std::marker::Model;
use sw_base::{Duplicate, Items, NoMemory, Text, Texts};

/// A loader that holds named texts, of which the first of a name counts, and tells what each name
/// holds.
///
/// A load fails, and counts a fault, exactly where its call is to fail or the name is not held.
/// Calls are counted from 1, and one that wants memory is not counted. The counts of calls and of
/// faults stay at 2^64 - 1.
#[derive(Debug, Drop)]
pub struct MemLoader {
    held: Items<(Text, Text)>,
    asked: Texts,
    given: TextLog,
    failing: Items<u64>,
    calls: u64,
    faults: u64,
}

impl Model for MemLoader {
    ghost use Rattle.sw_outside.specs.MemLoaderView.{MemLoaderView};

    ghost Value = { MemLoaderView };

    ghost view = { λ loader. record {
      held = loader.held;
      asked = loader.asked;
      given = loader.given.entries;
      failing = loader.failing;
      calls = loader.calls;
      faults = loader.faults;
    } };
}

impl MemLoader {
    /// A loader that holds no text, has asked nothing yet, and no call of which is to fail.
    pub fn new(alloc: Global) -> MemLoader
        ensures { result ≡ record { held = []; asked = []; given = []; failing = []; calls = 0; faults = 0 } }
    {
        MemLoader {
            held: Items::new(alloc),
            asked: Items::new(alloc),
            given: TextLog::new(),
            failing: Items::new(alloc),
            calls: 0,
            faults: 0,
        }
    }

    /// From now on the name holds this text, unless it held one already. The only error is want
    /// of memory, and leaves the loader as it was.
    pub fn add(&mut self, name: Text, held: Text) -> Result<(), NoMemory>
        ensures ok { OnOk result
            (self.new ≡ record self.old { held = self.old.held ++ (name, held) ∷ [] }) }
        ensures err { OnErr result (self.new ≡ self.old) }
    {
        self.held.push((name, held))
    }

    /// The call of this number, counted from 1, is to fail. The only error is want of memory, and
    /// leaves the loader as it was.
    pub fn fail_at(&mut self, call: u64) -> Result<(), NoMemory>
        ensures ok { OnOk result
            (self.new ≡ record self.old { failing = self.old.failing ++ call ∷ [] }) }
        ensures err { OnErr result (self.new ≡ self.old) }
    {
        self.failing.push(call)
    }
}

fn text_at<'a>(held: &'a [(Text, Text)], name: &Text) -> Option<&'a Text>
    ensures { option_copied result ≡ held_at held.now name.now }
{
    held.iter()
        .find(|entry| entry.0 == *name)
        .map(|entry| &entry.1)
}

fn is_in(number: u64, numbers: &[u64]) -> bool
    ensures { result ≡ is_in number numbers.now }
{
    numbers.contains(&number)
}

impl Loader for MemLoader {
    ghost holds = { λ loader name. held_at loader.held name };

    ghost asked = { λ loader. loader.asked };

    ghost given = { λ loader. loader.given };

    ghost faults = { λ loader. loader.faults };

    fn load(&mut self, name: &Text) -> Result<Text, LoadError>
        ensures exact { Loads self.old name.now self.new result }
    {
        let call = self.calls.saturating_add(1);
        let asked = name.copy()?;
        if !is_in(call, self.failing.as_slice()) {
            if let Some(held) = text_at(self.held.as_slice(), name) {
                let text = held.copy()?;
                self.asked.push(asked)?;
                self.given.push(name.as_bytes(), text.as_bytes());
                self.calls = call;
                return Ok(text);
            }
        }
        self.asked.push(asked)?;
        self.calls = call;
        self.faults = self.faults.saturating_add(1);
        Err(LoadError::Failed)
    }
}
