//! The top call: from the words of a call to its status, over a loader and a sink.

ghost use Rattle.std.specs.Prelude.{◌≡◌, ℕ, ◌≤◌, List, IfOk, MatchOption};
ghost use Rattle.sw_rules.specs.Refusal.{line_text};
ghost use Rattle.swda.specs.Calls.{run_words};
ghost use Rattle.swda.specs.Answered.{usage_text, load_fault_text, not_built_text, IsNoForm, RunSays, Says, Answers, Answered};

use crate::output::write_all;
use crate::reading::read;
use crate::status::Status;
use std::alloc::Global;
use sw_base::{Duplicate, NoMemory, Text};
use sw_outside::{Failed, LoadError, Loader, Sink};
use sw_rules::{FrontError, Refusal, line};
use sw_thin::{run_main, thin_body};

const USAGE: &[u8] =
    b"usage: swda check FILE | list FILE | run FILE PLAN | replay FILE PLAN SCHEDULE | threads FILE PLAN WORKERS | gen SEED SIZE\n";

const PLAN: &[u8] = b"swda-plan 1\nnodes 1\ntask 0 main\n";

const NOT_BUILT: &[u8] = b"not built\n";

/// The answer to a call: its status, and the text that is to be written.
#[derive(Drop)]
struct Answer {
    status: Status,
    text: Text,
}

/// The file and the plan of the form `run FILE PLAN`; none where the words are of another form.
fn run_arguments(words: &[Text]) -> Option<(&Text, &Text)>
    ensures { MatchOption result (IsNoForm words.now) (λ r. words.now ≡ run_words (record { source = r.0.now; plan = r.1.now })) }
{
    match words {
        [command, file, plan] if command.as_bytes() == b"run".as_slice() => Some((file, plan)),
        _ => None,
    }
}

/// The answer where the words are of no form that is served.
fn usage(alloc: Global) -> Result<Answer, NoMemory>
    ensures { IfOk result (λ answer. (answer.status ≡ Status.Usage) × (answer.text ≡ usage_text)) }
{
    Ok(Answer {
        status: Status::Usage,
        text: Text::from_bytes(alloc, USAGE)?,
    })
}

/// The answer where the file of this name could not be loaded.
fn load_fault(alloc: Global, name: &Text) -> Result<Answer, NoMemory>
    ensures { IfOk result (λ answer. (answer.status ≡ Status.LoadFault name.now) × (answer.text ≡ load_fault_text name.now)) }
{
    let mut text = Text::from_bytes(alloc, b"load fault ")?;
    text.push_all(name.as_bytes())?;
    text.push_all(b"\n")?;
    Ok(Answer {
        status: Status::LoadFault { name: name.copy()? },
        text,
    })
}

/// The answer where the source or the plan is beyond what is built so far.
fn not_built(alloc: Global) -> Result<Answer, NoMemory>
    ensures { IfOk result (λ answer. (answer.status ≡ Status.NotBuilt) × (answer.text ≡ not_built_text)) }
{
    Ok(Answer {
        status: Status::NotBuilt,
        text: Text::from_bytes(alloc, NOT_BUILT)?,
    })
}

/// The answer where the source breaks a rule.
fn refused(alloc: Global, refusal: Refusal) -> Result<Answer, NoMemory>
    ensures { IfOk result (λ answer. (answer.status ≡ Status.Refused refusal) × (answer.text ≡ line_text refusal)) }
{
    Ok(Answer {
        status: Status::Refused(refusal),
        text: line(alloc, &refusal)?,
    })
}

/// The answer to `run`, of a source under a plan.
fn answer_run(alloc: Global, source: &[u8], plan: &[u8]) -> Result<Answer, NoMemory>
    ensures { IfOk result (λ answer. RunSays (record { source = source.now; plan = plan.now }) answer.status answer.text) }
{
    let tree = match read(alloc, source) {
        Ok(tree) => tree,
        Err(FrontError::Refused(refusal)) => return refused(alloc, refusal),
        Err(FrontError::NoMemory) => return Err(NoMemory),
    };
    if plan != PLAN {
        return not_built(alloc);
    }
    let Some(body) = thin_body(alloc, &tree)? else {
        return not_built(alloc);
    };
    Ok(Answer {
        status: Status::Done,
        text: run_main(alloc, body)?,
    })
}

/// The answer to a call, from its words and what the loader gives. The files are asked in the order of the words.
fn answer_of<L: Loader>(alloc: Global, words: &[Text], loader: &mut L) -> Result<Answer, NoMemory>
    ensures says { IfOk result (λ answer. Says (record {
      words = words.now;
      before = record { holds = L.holds loader.old; asked = L.asked loader.old; given = L.given loader.old; faults = L.faults loader.old };
      after = record { holds = L.holds loader.new; asked = L.asked loader.new; given = L.given loader.new; faults = L.faults loader.new };
    }) answer.status answer.text) }
    ensures later { L.faults loader.old ≤ L.faults loader.new }
{
    let Some((file, plan)) = run_arguments(words) else {
        return usage(alloc);
    };
    let source = match loader.load(file) {
        Ok(source) => source,
        Err(LoadError::Failed) => return load_fault(alloc, file),
        Err(LoadError::NoMemory) => return Err(NoMemory),
    };
    let plan_text = match loader.load(plan) {
        Ok(plan_text) => plan_text,
        Err(LoadError::Failed) => return load_fault(alloc, plan),
        Err(LoadError::NoMemory) => return Err(NoMemory),
    };
    // Named, so that the proof speaks of the answer and not of a result.
    let answer = answer_run(alloc, source.as_bytes(), plan_text.as_bytes())?;
    Ok(answer)
}

/// Answers a call and writes the text of the answer, which is built whole before its first byte is written.
fn serve<L: Loader, S: Sink>(alloc: Global, words: &[Text], loader: &mut L, sink: &mut S) -> Status
    ensures answers { Answers (record {
      words = words.now;
      before = record { holds = L.holds loader.old; asked = L.asked loader.old; given = L.given loader.old; faults = L.faults loader.old };
      after = record { holds = L.holds loader.new; asked = L.asked loader.new; given = L.given loader.new; faults = L.faults loader.new };
    })
        (record {
          before = record { taken = S.taken sink.old; faults = S.faults sink.old };
          after = record { taken = S.taken sink.new; faults = S.faults sink.new };
        }) result }
    ensures loads { L.faults loader.old ≤ L.faults loader.new }
    ensures writes { S.faults sink.old ≤ S.faults sink.new }
{
    match answer_of(alloc, words, loader) {
        Err(NoMemory) => Status::WantOfMemory,
        Ok(answer) => match write_all(sink, answer.text.as_bytes()) {
            Ok(()) => answer.status,
            Err(Failed) => Status::WriteFault,
        },
    }
}

/// Does all that the program does: serves the words, from the files that the loader gives to the text that the
/// sink takes, and answers how the call has ended.
///
/// The words are those of the command line, without the program's name. The statuses, each with the text that the
/// sink has taken:
///
/// - `Done`: the words are `run FILE PLAN`, the loader gave both files, the source breaks no rule of tokens and of the
///   grammar, its tree is a thin one, and the plan is the one that is served. The text is the report of the run.
/// - `Refused`: the loader gave both files, and the source breaks a rule of tokens or of the grammar. The text is the
///   line of the first rule that it breaks.
/// - `Usage`: the words are of no form. The text lists the forms, and no file was asked.
/// - `LoadFault`: the loader failed at the file word with this name. The text names it.
/// - `NotBuilt`: the loader gave both files, the source breaks no such rule, and its tree is no thin one or the plan is
///   another one. The text is `not built`.
/// - `WriteFault`: the sink failed. It has taken a prefix of the text that another status would have had, and not the
///   whole of it.
/// - `WantOfMemory`: memory was wanted. The sink has taken nothing. No clause says when it comes.
pub fn swda<L: Loader, S: Sink>(
    alloc: Global,
    words: &[Text],
    loader: &mut L,
    sink: &mut S,
) -> Status
    ensures { Answered (record {
      words = words.now;
      before = record { holds = L.holds loader.old; asked = L.asked loader.old; given = L.given loader.old; faults = L.faults loader.old };
      after = record { holds = L.holds loader.new; asked = L.asked loader.new; given = L.given loader.new; faults = L.faults loader.new };
    })
        (record {
          before = record { taken = S.taken sink.old; faults = S.faults sink.old };
          after = record { taken = S.taken sink.new; faults = S.faults sink.new };
        }) result }
{
    serve(alloc, words, loader, sink)
}
