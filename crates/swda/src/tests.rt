//! Worked calls of the program, over loaders and sinks in memory, and the real files and output.

mod files;
mod outside;
mod refused;

use crate::top::swda;
use refused::REFUSED;
use std::alloc::Global;
use std::process::Abort;
use sw_base::{Items, NoMemory, Text};
use sw_outside::{MemLoader, MemSink};

const HI: &[u8] = b"func main(system: NodeSystem) async throws {\n  print(\"hi\")\n}\n";

const HI_IN_A_LINE: &[u8] = b"func main(system: NodeSystem) async throws { print(\"hi\") }";

const HI_REPORT: &[u8] =
    b"end done\nstatements 1\nevents 2\ncalls 0\nstarted 0\nwaited 0\nsent 0\nlost 0\ndelivered 0\nnoise 0\nnode 0 restarts 0\nlog 0 hi\ntask 0 node 0 epoch 0 returned\n";

const NO_LINE: &[u8] = b"func main(system: NodeSystem) async throws {\n}\n";

const NO_LINE_REPORT: &[u8] =
    b"end done\nstatements 0\nevents 1\ncalls 0\nstarted 0\nwaited 0\nsent 0\nlost 0\ndelivered 0\nnoise 0\nnode 0 restarts 0\ntask 0 node 0 epoch 0 returned\n";

const PLAN: &[u8] = b"swda-plan 1\nnodes 1\ntask 0 main\n";

const TWO_NODES: &[u8] = b"swda-plan 1\nnodes 2\ntask 0 main\n";

const USAGE: &[u8] =
    b"usage: swda check FILE | list FILE | run FILE PLAN | replay FILE PLAN SCHEDULE | threads FILE PLAN WORKERS | gen SEED SIZE\n";

const RUN: &[&[u8]] = &[b"run", b"file", b"plan"];

/// The bytes that the sink takes, where a row does not say fewer.
const ROOM: usize = 1000;

/// Files by name.
type Files<'a> = &'a [(&'a [u8], &'a [u8])];

const SERVED: Files<'static> = &[(b"file", HI), (b"plan", PLAN)];

/// A call: its words, the files that the loader holds, the room of the sink, and which write fails, or 0 for none.
#[derive(Clone, Copy)]
struct Call<'a> {
    words: &'a [&'a [u8]],
    files: Files<'a>,
    room: usize,
    failing: u64,
}

/// The exit code of a call, and its sink.
fn answer(alloc: Global, call: Call) -> Result<(u8, MemSink), NoMemory> {
    let mut words = Items::new(alloc);
    for word in call.words {
        words.push(Text::from_bytes(alloc, *word)?)?;
    }
    let mut loader = MemLoader::new(alloc);
    for (name, held) in call.files {
        loader.add(
            Text::from_bytes(alloc, *name)?,
            Text::from_bytes(alloc, *held)?,
        )?;
    }
    let mut sink = MemSink::new(alloc, call.room)?;
    sink.fail_at(call.failing)?;
    let status = swda(alloc, words.as_slice(), &mut loader, &mut sink);
    Ok((status.code(), sink))
}

/// Expects the exit code and the bytes that the sink has taken.
fn expect_answer(rt: &impl Abort, alloc: Global, call: Call, code: u8, taken: &[u8]) {
    let (answered, sink) = answer(alloc, call).expect(rt, "memory");
    assert_eq!(rt; answered, code);
    assert_eq!(rt; sink.taken(), taken);
}

/// The call of these words over these files, with a sink that does not fail.
fn call_over<'a>(words: &'a [&'a [u8]], files: Files<'a>) -> Call<'a> {
    Call {
        words,
        files,
        room: ROOM,
        failing: 0,
    }
}

#[test]
fn runs_are_reported(rt: HostRuntime) {
    let alloc = rt.alloc();
    expect_answer(&rt, alloc, call_over(RUN, SERVED), 0, HI_REPORT);
    let one_line: Files = &[(b"file", HI_IN_A_LINE), (b"plan", PLAN)];
    expect_answer(&rt, alloc, call_over(RUN, one_line), 0, HI_REPORT);
    let no_line: Files = &[(b"file", NO_LINE), (b"plan", PLAN)];
    expect_answer(&rt, alloc, call_over(RUN, no_line), 0, NO_LINE_REPORT);
}

/// The source of a main with these body lines, each with its end.
fn source_of(alloc: Global, lines: &[u8]) -> Result<Text, NoMemory> {
    let mut source = Text::from_bytes(alloc, b"func main(system: NodeSystem) async throws {\n")?;
    source.push_all(lines)?;
    source.push_all(b"}\n")?;
    Ok(source)
}

/// The report of a run without faults, from its counts and its lines `log`.
fn expected_report(
    alloc: Global,
    statements: u64,
    events: u64,
    logs: &[u8],
) -> Result<Text, NoMemory> {
    let mut report = Text::from_bytes(alloc, b"end done\nstatements ")?;
    report.push_all(statements.to_string(alloc)?.as_bytes())?;
    report.push_all(b"\nevents ")?;
    report.push_all(events.to_string(alloc)?.as_bytes())?;
    report.push_all(
        b"\ncalls 0\nstarted 0\nwaited 0\nsent 0\nlost 0\ndelivered 0\nnoise 0\nnode 0 restarts 0\n",
    )?;
    report.push_all(logs)?;
    report.push_all(b"task 0 node 0 epoch 0 returned\n")?;
    Ok(report)
}

/// So many `let` lines, from the one with this number on.
fn push_lets(alloc: Global, lines: &mut Text, first: u64, count: u64) -> Result<(), NoMemory> {
    for i in 0..count {
        lines.push_all(b"  let v")?;
        lines.push_all(first.saturating_add(i).to_string(alloc)?.as_bytes())?;
        lines.push_all(b" = 1\n")?;
    }
    Ok(())
}

/// The line that prints a sum of so many integers, the greatest there are.
fn print_of_terms(alloc: Global, terms: u64) -> Result<Text, NoMemory> {
    let mut line = Text::from_bytes(alloc, b"  print(999999999")?;
    for _ in 1..terms {
        line.push_all(b" + 999999999")?;
    }
    line.push_all(b")\n")?;
    Ok(line)
}

/// Expects the report of a run of these body lines.
fn expect_run(
    rt: &impl Abort,
    alloc: Global,
    lines: &[u8],
    statements: u64,
    events: u64,
    logs: &[u8],
) {
    let source = source_of(alloc, lines).expect(rt, "memory");
    let report = expected_report(alloc, statements, events, logs).expect(rt, "memory");
    let files: Files = &[(b"file", source.as_bytes()), (b"plan", PLAN)];
    expect_answer(rt, alloc, call_over(RUN, files), 0, report.as_bytes());
}

/// Expects that a main of these body lines is not served.
fn expect_not_built(rt: &impl Abort, alloc: Global, lines: &[u8]) {
    let source = source_of(alloc, lines).expect(rt, "memory");
    let files: Files = &[(b"file", source.as_bytes()), (b"plan", PLAN)];
    expect_answer(rt, alloc, call_over(RUN, files), 11, b"not built\n");
}

#[test]
fn sums_and_variables_are_printed(rt: HostRuntime) {
    let alloc = rt.alloc();
    let rows: &[(&[u8], u64, u64, &[u8])] = &[
        (
            b"  let v0 = 1 + 2\n  print(v0)\n  print(\"hi\")\n",
            3,
            3,
            b"log 0 3\nlog 0 hi\n",
        ),
        (b"  print(0)\n", 1, 2, b"log 0 0\n"),
        (b"  print(000000007)\n", 1, 2, b"log 0 7\n"),
        (b"  print(1 + 20 + 300)\n", 1, 2, b"log 0 321\n"),
        (b"  print(1 +2)\n", 1, 2, b"log 0 3\n"),
        (
            b"print(1_000 /* and */ + 0002); print(\"\\u{41}\")\n",
            2,
            3,
            b"log 0 1002\nlog 0 A\n",
        ),
        (
            b"  let v0 = 5\n  let v1 = 7\n  print(v0)\n  print(v1)\n",
            4,
            3,
            b"log 0 5\nlog 0 7\n",
        ),
    ];
    for (lines, statements, events, logs) in rows {
        expect_run(&rt, alloc, *lines, *statements, *events, *logs);
    }
    let sums: &[(u64, &[u8])] = &[
        (1, b"log 0 999999999\n"),
        (2, b"log 0 1999999998\n"),
        (100, b"log 0 99999999900\n"),
    ];
    for (terms, logs) in sums {
        let line = print_of_terms(alloc, *terms).expect(&rt, "memory");
        expect_run(&rt, alloc, line.as_bytes(), 1, 2, *logs);
    }
}

#[test]
fn other_body_lines_are_not_built(rt: HostRuntime) {
    let alloc = rt.alloc();
    let rows: &[&[u8]] = &[
        b"  let v1 = 1\n",
        b"  let v1 = 1\n  print(v1)\n",
        b"  let v00 = 1\n  print(v00)\n",
        b"  let v0 = 1\n  let v1 = v0\n",
        b"  print(1 - 2)\n",
        b"  print((1))\n",
        b"  let v0: Int = 1\n",
        b"  print(\"\\n\")\n",
        b"  print(1234567890)\n",
        b"  print()\n",
    ];
    for lines in rows {
        expect_not_built(&rt, alloc, *lines);
    }
    let mut line = Text::from_bytes(alloc, b"  let v0 = 1").expect(&rt, "memory");
    for _ in 0..100 {
        line.push_all(b" + 1").expect(&rt, "memory");
    }
    line.push_all(b"\n").expect(&rt, "memory");
    expect_not_built(&rt, alloc, line.as_bytes());
}

/// Expects the first rule that a source breaks.
fn expect_refused(rt: &impl Abort, alloc: Global, source: &[u8], line: &[u8]) {
    let files: Files = &[(b"file", source), (b"plan", PLAN)];
    expect_answer(rt, alloc, call_over(RUN, files), 1, line);
}

#[test]
fn sources_that_break_a_rule_are_refused(rt: HostRuntime) {
    let alloc = rt.alloc();
    let rows: &[(&[u8], &[u8])] = &[
        (b"let x = 1", b"refused P1 1:1\n"),
        (b"\"", b"refused L3 1:1\n"),
        (b"\xc3\xa9", b"refused L2 1:1\n"),
        (
            b"func g() async throws { }\nfunc f() async throws { await try g() }",
            b"refused P4 2:25\n",
        ),
        (
            b"func main(system: NodeSystem) async throws {\n  print(1)",
            b"refused P1 2:11\n",
        ),
        (
            b"func main(system: NodeSystem) async throws {\n  print(v0)\n}",
            b"refused N3 2:9\n",
        ),
        (
            b"func main(system: NodeSystem) async throws {\n  let v0 = 1\n  print(v00)\n}",
            b"refused N3 3:9\n",
        ),
        (
            b"func main(system: NodeSystem) async throws {\n  print(v0)\n  await try f()\n}",
            b"refused P4 3:3\n",
        ),
    ];
    for (source, line) in rows {
        expect_refused(&rt, alloc, *source, *line);
    }
    for (source, line) in REFUSED {
        expect_refused(&rt, alloc, *source, *line);
    }
    // The call is one of the forms that count, so that the 100th mark is the 101st of them.
    let lines = print_of_terms(alloc, 101).expect(&rt, "memory");
    let source = source_of(alloc, lines.as_bytes()).expect(&rt, "memory");
    expect_refused(&rt, alloc, source.as_bytes(), b"refused P3 2:1207\n");
    let two_nodes: Files = &[(b"file", b"let x = 1"), (b"plan", TWO_NODES)];
    expect_answer(
        &rt,
        alloc,
        call_over(RUN, two_nodes),
        1,
        b"refused P1 1:1\n",
    );
}

#[test]
fn a_source_of_a_byte_too_many_is_refused(rt: HostRuntime) {
    let alloc = rt.alloc();
    let mut source = Text::from_bytes(alloc, b"\n").expect(&rt, "memory");
    for _ in 0..16384 {
        let line = b"                                                               \n";
        source.push_all(line).expect(&rt, "memory");
    }
    expect_refused(&rt, alloc, source.as_bytes(), b"refused L5 1:1\n");
}

#[test]
fn a_turn_begins_at_most_1000_statements(rt: HostRuntime) {
    let alloc = rt.alloc();
    // So many `let` lines before a print and after it, or no print; then the statements and the events.
    let rows: &[(u64, Option<u64>, u64, u64)] = &[
        (1000, None, 1000, 1),
        (1001, None, 1001, 2),
        (2000, None, 2000, 2),
        (2001, None, 2001, 3),
        (999, Some(1000), 2000, 2),
        (1000, Some(0), 1001, 3),
    ];
    for (before, after, statements, events) in rows {
        let mut lines = Text::from_bytes(alloc, b"").expect(&rt, "memory");
        push_lets(alloc, &mut lines, 0, *before).expect(&rt, "memory");
        let mut logs: &[u8] = b"";
        if let Some(after) = after {
            lines.push_all(b"  print(\"a\")\n").expect(&rt, "memory");
            push_lets(alloc, &mut lines, *before, *after).expect(&rt, "memory");
            logs = b"log 0 a\n";
        }
        expect_run(&rt, alloc, lines.as_bytes(), *statements, *events, logs);
    }
}

#[test]
fn a_report_that_is_cut_off_is_a_write_fault(rt: HostRuntime) {
    let alloc = rt.alloc();
    let first_fails = Call {
        failing: 1,
        ..call_over(RUN, SERVED)
    };
    expect_answer(&rt, alloc, first_fails, 4, b"");
    let small = Call {
        room: 5,
        ..call_over(RUN, SERVED)
    };
    expect_answer(&rt, alloc, small, 4, b"end d");
}

#[test]
fn other_sources_and_plans_are_not_built(rt: HostRuntime) {
    let alloc = rt.alloc();
    let empty: Files = &[(b"file", b""), (b"plan", PLAN)];
    expect_answer(&rt, alloc, call_over(RUN, empty), 11, b"not built\n");
    let two_nodes: Files = &[(b"file", HI), (b"plan", TWO_NODES)];
    expect_answer(&rt, alloc, call_over(RUN, two_nodes), 11, b"not built\n");
}

#[test]
fn other_words_get_the_usage(rt: HostRuntime) {
    let alloc = rt.alloc();
    expect_answer(&rt, alloc, call_over(&[], SERVED), 2, USAGE);
    expect_answer(
        &rt,
        alloc,
        call_over(&[b"check", b"file"], SERVED),
        2,
        USAGE,
    );
    expect_answer(&rt, alloc, call_over(&[b"run", b"file"], SERVED), 2, USAGE);
}

#[test]
fn a_file_that_is_missing_is_named(rt: HostRuntime) {
    let alloc = rt.alloc();
    let first = call_over(&[b"run", b"nofile", b"x"], &[]);
    expect_answer(&rt, alloc, first, 3, b"load fault nofile\n");
    let second = call_over(&[b"run", b"file", b"nofile"], SERVED);
    expect_answer(&rt, alloc, second, 3, b"load fault nofile\n");
    let not_utf_8 = call_over(&[b"run", b"\xff", b"plan"], SERVED);
    expect_answer(&rt, alloc, not_utf_8, 3, b"load fault \xff\n");
    let small = Call { room: 5, ..first };
    expect_answer(&rt, alloc, small, 4, b"load ");
}
