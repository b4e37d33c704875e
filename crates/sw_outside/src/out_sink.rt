//! A sink over a writer.

ghost use Rattle.std.specs.Prelude.{◌≡◌, ◌<◌, [], length};
ghost use Rattle.std.specs.Io.KnownBytes.{WriteAppends};
ghost use Rattle.sw_outside.specs.OutSinkView.{OutputWrites};

use crate::log::ByteLog;
use crate::outside::{Failed, Sink};
use std::io::Write;
use std::marker::Model;

/// A sink that passes bytes on to a writer, as standard output.
///
/// A write fails, and counts a fault, where the writer fails or takes nothing.
#[derive(Drop)]
pub struct OutSink<W> {
    writer: W,
    taken: ByteLog,
    faults: u64,
}

impl<W> Model for OutSink<W> {
    ghost use Rattle.sw_outside.specs.OutSinkView.{OutSinkView};

    ghost Value = { OutSinkView W };

    ghost view = { λ sink. record { writer = sink.writer; taken = sink.taken.bytes; faults = sink.faults } };
}

impl<W> OutSink<W> {
    /// A sink over a writer, that took no byte and has no fault yet.
    pub fn new(writer: W) -> OutSink<W>
        ensures { result ≡ record { writer = writer; taken = []; faults = 0 } }
    {
        OutSink {
            writer,
            taken: ByteLog::new(),
            faults: 0,
        }
    }
}

impl<W: Write> Sink for OutSink<W> {
    ghost taken = { λ sink. sink.taken };

    ghost faults = { λ sink. sink.faults };

    // what it took is what the writer appended to its contents, where these are known
    fn write(&mut self, bytes: &[u8]) -> Result<usize, Failed>
        requires { 0 < length bytes.now }
        ensures exact { OutputWrites self.old bytes.now self.new result }
        ensures appends { WriteAppends (W.contents self.old.writer) (W.contents self.new.writer) result bytes.now }
    {
        match self.writer.write(bytes) {
            Ok(count) if count > 0 => {
                self.taken.push(&bytes[..count]);
                Ok(count)
            }
            _ => {
                self.faults = self.faults.saturating_add(1);
                Err(Failed)
            }
        }
    }
}
