//! Real files, the real output and a full device, files in memory, and the calls that are to fail.

ghost use Rattle.std.specs.Prelude.{◌≡◌, Some, IfOk};

use std::alloc::Global;
use std::test::Fail;
use std::{fs, io};
use sw_base::{Duplicate, NoMemory, Text};
use sw_outside::{
    Failed, FileLoader, HostFiles, LoadError, Loader, MemLoader, MemSink, Opener, OutSink, Sink,
};

fn loaded(rt: &HostRuntime, name: &[u8]) -> Result<Text, LoadError> {
    let name = Text::from_bytes(rt.alloc(), name)?;
    FileLoader::new(rt.alloc(), HostFiles::new(rt)).load(&name)
}

#[test]
fn a_file_is_loaded_whole(rt: HostRuntime) -> Result<(), Fail> {
    fs::write(&rt, "held", "two\nlines")?;
    assert_eq!(rt; loaded(&rt, b"held")?.as_bytes(), b"two\nlines".as_slice());
    let absent = b"absent".as_slice();
    let not_utf8 = b"\xff".as_slice();
    let directory = b".".as_slice();
    for name in [absent, not_utf8, directory] {
        assert_eq!(rt;
            loaded(&rt, name).err(),
            Some(LoadError::Failed),
            "{name:?}"
        );
    }
    Ok(())
}

/// A file in memory, under every path.
#[derive(Drop)]
struct OneFile<'a>(&'a [u8]);

impl<'a> Opener for OneFile<'a> {
    type File = &'a [u8];

    ghost contents = { λ file path. Some file.0.now };

    fn open(&self, _path: &str) -> io::Result<&'a [u8]> {
        Ok(self.0)
    }
}

/// What the loader of files gives over an opener that tells what it opens.
fn opened(alloc: Global, held: &[u8]) -> Result<Text, LoadError>
    ensures { IfOk result (λ text. text ≡ held.now) }
{
    let name = Text::from_bytes(alloc, b"any")?;
    FileLoader::new(alloc, OneFile(held)).load(&name)
}

#[test]
fn a_file_in_memory_is_loaded_whole(rt: HostRuntime) -> Result<(), Fail> {
    let text = opened(rt.alloc(), b"two\nlines")?;
    assert_eq!(rt; text.as_bytes(), b"two\nlines".as_slice());
    Ok(())
}

#[test]
fn output_takes_bytes_and_a_full_device_takes_none(rt: HostRuntime) -> Result<(), Fail> {
    assert_eq!(rt; OutSink::new(rt.stdout()).write(b"x"), Ok(1));
    let full = fs::create(&rt, "/dev/full")?;
    assert_eq!(rt; OutSink::new(full).write(b"x"), Err(Failed));
    Ok(())
}

// Which of three loads of a held name fail.
fn failing_loads(alloc: Global, to_fail: u64) -> Result<Vec<bool>, NoMemory> {
    let name = Text::from_bytes(alloc, b"name")?;
    let mut loader = MemLoader::new(alloc);
    loader.add(name.copy()?, Text::from_bytes(alloc, b"held")?)?;
    loader.fail_at(to_fail)?;
    let mut failing = Vec::new(alloc);
    for _ in 0..3 {
        failing.push(loader.load(&name) == Err(LoadError::Failed))?;
    }
    Ok(failing)
}

// What three writes of three bytes take in a room of five.
fn writes(alloc: Global, to_fail: u64) -> Result<Vec<Result<usize, Failed>>, NoMemory> {
    let mut sink = MemSink::new(alloc, 5)?;
    sink.fail_at(to_fail)?;
    let mut written = Vec::new(alloc);
    for _ in 0..3 {
        written.push(sink.write(b"abc"))?;
    }
    Ok(written)
}

fn given(alloc: Global) -> Result<Text, LoadError> {
    let name = Text::from_bytes(alloc, b"name")?;
    let mut loader = MemLoader::new(alloc);
    loader.add(name.copy()?, Text::from_bytes(alloc, b"first")?)?;
    loader.add(name.copy()?, Text::from_bytes(alloc, b"second")?)?;
    loader.load(&name)
}

fn filled(alloc: Global) -> Result<MemSink, NoMemory> {
    let mut sink = MemSink::new(alloc, 5)?;
    let _ = sink.write(b"abc");
    let _ = sink.write(b"def");
    Ok(sink)
}

#[test]
fn memory_gives_the_first_text_and_takes_what_fits(rt: HostRuntime) -> Result<(), Fail> {
    assert_eq!(rt; given(rt.alloc())?.as_bytes(), b"first".as_slice());
    assert_eq!(rt; filled(rt.alloc())?.taken(), b"abcde".as_slice());
    Ok(())
}

#[test]
fn calls_fail_as_planned(rt: HostRuntime) -> Result<(), Fail> {
    let table = [
        (1, [true, false, false], [Err(Failed), Ok(3), Ok(2)]),
        (2, [false, true, false], [Ok(3), Err(Failed), Ok(2)]),
        (3, [false, false, true], [Ok(3), Ok(2), Err(Failed)]),
        (4, [false, false, false], [Ok(3), Ok(2), Err(Failed)]),
    ];
    for (to_fail, failing, written) in table {
        let loads = failing_loads(rt.alloc(), to_fail)?;
        assert_eq!(rt;
            loads.as_slice(),
            failing.as_slice(),
            "call {to_fail} is to fail"
        );
        let writes = writes(rt.alloc(), to_fail)?;
        assert_eq!(rt;
            writes.as_slice(),
            written.as_slice(),
            "call {to_fail} is to fail"
        );
    }
    Ok(())
}
