//! What the table of a type's members is told of each of them, by key.

ghost use Rattle.std.specs.Prelude.{◌≡◌, ◌∷◌, ◌++◌, [], IfOk, OnOk};
ghost use Rattle.sw_declared.specs.Declarations.{argument_labels};
ghost use Rattle.sw_declared.specs.Facts.{call_code, fact, facts_by_kind, facts_by_labels, facts_of, key, question_code, rank_of};
ghost use Rattle.sw_declared.specs.Spelling.{spelled};

use crate::names::{Member, MemberKind};
use crate::ranks::{alias_rank, id_rank, plain_rank, static_rank, type_id_rank, type_rank};
use crate::spelling::{spelled, spelled_call};
use std::alloc::Global;
use sw_base::{Items, NoMemory, Text};
use sw_tree::Argument;

/// What is asked of the members of a name. Each member has a rank as the answer, 0 where it is not meant.
#[derive(Clone, Copy)]
pub(crate) enum Question {
    /// 1, and 2 for what is static.
    Named,
    /// The same of what is not called.
    Plain,
    /// 1 for an alias, and 2 for one after which `ActorID` may stand.
    Aliased,
    /// 1 for an alias after which `ID` may stand.
    IdAliased,
}

/// Begins the keys of calls, as the codes of questions begin the others.
const CALL_CODE: u8 = 4;

/// A rank that is told of a key.
#[derive(Drop)]
pub(crate) struct Fact {
    pub(crate) key: Text,
    pub(crate) rank: usize,
}

/// The rank of a member.
#[tactic(auto, unfolding(crate::specs::Facts::rank_of))]
pub(crate) fn rank_of(question: Question, member: &Member) -> usize
    ensures { result ≡ rank_of question member.now }
{
    match question {
        Question::Named => static_rank(member.is_static),
        Question::Plain => plain_rank(member),
        Question::Aliased => type_rank(member.kind),
        Question::IdAliased => type_id_rank(member.kind),
    }
}

#[tactic(auto, unfolding(crate::specs::Facts::question_code))]
fn question_code(question: Question) -> u8
    ensures { result ≡ question_code question }
{
    match question {
        Question::Named => 0,
        Question::Plain => 1,
        Question::Aliased => 2,
        Question::IdAliased => 3,
    }
}

fn key(alloc: Global, code: u8, text: &[u8]) -> Result<Text, NoMemory>
    ensures { IfOk result (λ text_key. text_key ≡ key code text.now) }
{
    let mut key = Text::from_bytes(alloc, &[code])?;
    key.push_all(text)?;
    Ok(key)
}

/// The key of a question about a name. The only error is want of memory.
pub(crate) fn name_key(alloc: Global, question: Question, name: &[u8]) -> Result<Text, NoMemory>
    ensures { IfOk result (λ text_key. text_key ≡ key (question_code question) name.now) }
{
    key(alloc, question_code(question), name)
}

/// The key of a call of a name with the labels of arguments. The only error is want of memory.
pub(crate) fn call_key(alloc: Global, name: &[u8], arguments: &[Argument]) -> Result<Text, NoMemory>
    ensures { IfOk result (λ text_key. text_key ≡ key call_code (spelled name.now (argument_labels arguments.now))) }
{
    let call = spelled_call(alloc, name, arguments)?;
    key(alloc, CALL_CODE, call.as_slice())
}

fn push_fact(
    facts: &mut Items<Fact>,
    alloc: Global,
    code: u8,
    text: &[u8],
    rank: usize,
) -> Result<(), NoMemory>
    ensures { OnOk result (facts.new ≡ facts.old ++ fact code text.now rank ∷ []) }
{
    let key = key(alloc, code, text)?;
    facts.push(Fact { key, rank })
}

/// Adds what is told of a member because it is called, or because it is not.
#[tactic(auto, unfolding(crate::specs::Facts::facts_by_labels))]
fn push_by_labels(facts: &mut Items<Fact>, alloc: Global, item: &Member) -> Result<(), NoMemory>
    ensures { OnOk result (facts.new ≡ facts.old ++ facts_by_labels item.now.name item.now.is_static item.now.labels) }
{
    let name = item.name.as_bytes();
    let rank = static_rank(item.is_static);
    match &item.labels {
        None => push_fact(facts, alloc, question_code(Question::Plain), name, rank),
        Some(labels) => {
            let call = spelled(alloc, name, labels.as_slice())?;
            push_fact(facts, alloc, CALL_CODE, call.as_slice(), rank)
        }
    }
}

/// Adds what is told of a member because it names a type.
#[tactic(auto, unfolding(crate::specs::Facts::facts_by_kind))]
fn push_by_kind(
    facts: &mut Items<Fact>,
    alloc: Global,
    name: &[u8],
    kind: MemberKind,
) -> Result<(), NoMemory>
    ensures { OnOk result (facts.new ≡ facts.old ++ facts_by_kind name.now kind) }
{
    match kind {
        MemberKind::Alias(inner) => {
            let named = question_code(Question::Aliased);
            let by_id = question_code(Question::IdAliased);
            push_fact(facts, alloc, named, name, alias_rank(inner))?;
            push_fact(facts, alloc, by_id, name, id_rank(inner))
        }
        _ => Ok(()),
    }
}

/// What is told of a member. The only error is want of memory.
pub(crate) fn facts_of(alloc: Global, item: &Member) -> Result<Items<Fact>, NoMemory>
    ensures { IfOk result (λ facts. facts ≡ facts_of item.now) }
{
    let named = question_code(Question::Named);
    let name = item.name.as_bytes();
    let mut facts = Items::new(alloc);
    push_fact(&mut facts, alloc, named, name, static_rank(item.is_static))?;
    push_by_labels(&mut facts, alloc, item)?;
    push_by_kind(&mut facts, alloc, name, item.kind)?;
    Ok(facts)
}
