//! A loader over files.

ghost use Rattle.std.specs.Prelude.{◌≡◌, ◌≤◌, [], length, IfOk, OnOk, IfSome, IsUtf8};
ghost use Rattle.sw_outside.specs.Files.{FileLoads, largest};

use crate::log::TextLog;
use crate::opener::{Opener, file_text};
use crate::outside::{LoadError, Loader};
use std::alloc::Global;
use std::marker::Model;
use sw_base::{Duplicate, Items, Text, Texts};

/// A loader that takes a name as the path of a file. It tells what a file holds as far as its opener does.
///
/// A load fails, and counts a fault, where the name is no UTF-8, where the file cannot be opened or
/// read to its end (as a directory cannot), and where it is longer than 1,073,741,824 bytes.
#[derive(Drop)]
pub struct FileLoader<O> {
    alloc: Global,
    opener: O,
    asked: Texts,
    given: TextLog,
    faults: u64,
}

impl<O> Model for FileLoader<O> {
    ghost use Rattle.sw_outside.specs.Files.{FileLoaderView};

    ghost Value = { FileLoaderView O };

    ghost view = { λ loader. record {
      opener = loader.opener;
      asked = loader.asked;
      given = loader.given.entries;
      faults = loader.faults;
    } };
}

impl<O> FileLoader<O> {
    /// A loader over the files of this opener, that has asked nothing yet. Its loads allocate by this allocator.
    pub fn new(alloc: Global, opener: O) -> FileLoader<O>
        ensures { result ≡ record { opener = opener; asked = []; given = []; faults = 0 } }
    {
        FileLoader {
            alloc,
            opener,
            asked: Items::new(alloc),
            given: TextLog::new(),
            faults: 0,
        }
    }
}

impl<O: Opener> Loader for FileLoader<O> {
    ghost holds = { λ loader name. O.contents loader.opener name };

    ghost asked = { λ loader. loader.asked };

    ghost given = { λ loader. loader.given };

    ghost faults = { λ loader. loader.faults };

    fn load(&mut self, name: &Text) -> Result<Text, LoadError>
        ensures exact { FileLoads self.old name.now self.new result }
        ensures text { IfOk result
            (λ text. IfSome (O.contents self.old.opener name.now) (λ held. text ≡ held)) }
        ensures short { IfOk result (λ text. length text ≤ largest) }
        ensures utf8 { OnOk result (IsUtf8 name.now) }
    {
        let asked = name.copy()?;
        match file_text(self.alloc, &self.opener, name.as_bytes()) {
            Ok(text) => {
                self.asked.push(asked)?;
                self.given.push(name.as_bytes(), text.as_bytes());
                Ok(text)
            }
            Err(LoadError::NoMemory) => Err(LoadError::NoMemory),
            Err(LoadError::Failed) => {
                self.asked.push(asked)?;
                self.faults = self.faults.saturating_add(1);
                Err(LoadError::Failed)
            }
        }
    }
}
