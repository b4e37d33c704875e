//! The keys by which declarations are found: a question, a side, and a name or the spelling of a call.

ghost use Rattle.std.specs.Prelude.{◌≡◌, ◌++◌, ◌&&◌, IfOk, OnOk};
ghost use Rattle.sw_declared.specs.Declarations.{argument_labels};
ghost use Rattle.sw_declared.specs.Spelling.{spelled};
ghost use Rattle.sw_members.specs.Found.{on_side};
ghost use Rattle.sw_members.specs.Keys.{answers, call_code, fits, key, keys_by_labels, keys_of, keys_on, question_code, side_code, side_of};

use crate::declaration::{Declaration, Side};
use std::alloc::Global;
use sw_base::{ArgLabels, Items, NoMemory, Text};
use sw_declared::{spelled, spelled_call};
use sw_tree::Argument;

/// What is asked of the declarations of a name.
#[derive(Clone, Copy, Debug, PartialEq, Eq)]
pub(crate) enum Question {
    /// Whether there is one.
    Named,
    /// Whether one can be called.
    Callable,
    /// Whether one stands as a value.
    Value,
}

/// Begins the keys of calls, as the codes of questions begin the others.
const CALL_CODE: u8 = 3;

#[tactic(auto, unfolding(crate::specs::Keys::question_code))]
fn question_code(question: Question) -> u8
    ensures { result ≡ question_code question }
{
    match question {
        Question::Named => 0,
        Question::Callable => 1,
        Question::Value => 2,
    }
}

#[tactic(auto, unfolding(crate::specs::Keys::side_code))]
fn side_code(side: Side) -> u8
    ensures { result ≡ side_code side }
{
    match side {
        Side::Both => 0,
        Side::Static => 1,
        Side::Instance => 2,
    }
}

#[tactic(auto, unfolding(crate::specs::Keys::side_of))]
fn side_of(is_static: bool) -> Side
    ensures { result ≡ side_of is_static }
{
    if is_static {
        Side::Static
    } else {
        Side::Instance
    }
}

#[tactic(auto, unfolding(crate::specs::Found::on_side))]
fn on_side(side: Side, is_static: bool) -> bool
    ensures { result ≡ on_side side is_static }
{
    match side {
        Side::Both => true,
        Side::Static => is_static,
        Side::Instance => !is_static,
    }
}

#[tactic(auto, unfolding(crate::specs::Keys::fits))]
fn fits(question: Question, labels: &Option<ArgLabels>) -> bool
    ensures { result ≡ fits question labels.now }
{
    match question {
        Question::Named => true,
        Question::Callable => labels.is_some(),
        Question::Value => labels.is_none(),
    }
}

/// Tells whether a declaration is one that is asked for.
#[tactic(auto, unfolding(sw_sight::specs::InSight::same))]
pub(crate) fn answers(question: Question, side: Side, name: &[u8], item: &Declaration) -> bool
    ensures { result ≡ answers question side name.now item.now }
{
    item.name.as_bytes() == name && on_side(side, item.is_static) && fits(question, &item.labels)
}

fn key(alloc: Global, code: u8, side: Side, text: &[u8]) -> Result<Text, NoMemory>
    ensures { IfOk result (λ text_key. text_key ≡ key code side text.now) }
{
    let mut key = Text::from_bytes(alloc, &[code, side_code(side)])?;
    key.push_all(text)?;
    Ok(key)
}

/// The key of a question about a name. The only error is want of memory.
pub(crate) fn name_key(
    alloc: Global,
    question: Question,
    side: Side,
    name: &[u8],
) -> Result<Text, NoMemory>
    ensures { IfOk result (λ text_key. text_key ≡ key (question_code question) side name.now) }
{
    key(alloc, question_code(question), side, name)
}

/// The key of a call of a name with the labels of arguments. The only error is want of memory.
pub(crate) fn call_key(
    alloc: Global,
    side: Side,
    name: &[u8],
    arguments: &[Argument],
) -> Result<Text, NoMemory>
    ensures { IfOk result (λ text_key. text_key ≡ key call_code side (spelled name.now (argument_labels arguments.now))) }
{
    let call = spelled_call(alloc, name, arguments)?;
    key(alloc, CALL_CODE, side, call.as_slice())
}

/// Adds the keys of one question, of what is on a side.
fn push_keys(
    keys: &mut Items<Text>,
    alloc: Global,
    code: u8,
    own: Side,
    text: &[u8],
) -> Result<(), NoMemory>
    ensures { OnOk result (keys.new ≡ keys.old ++ keys_on code own text.now) }
{
    keys.push(key(alloc, code, Side::Both, text)?)?;
    keys.push(key(alloc, code, own, text)?)
}

/// Adds the keys that a declaration has because it is called, or because it is not.
#[tactic(auto, unfolding(crate::specs::Keys::keys_by_labels))]
fn push_by_labels(
    keys: &mut Items<Text>,
    alloc: Global,
    own: Side,
    item: &Declaration,
) -> Result<(), NoMemory>
    ensures { OnOk result (keys.new ≡ keys.old ++ keys_by_labels own item.now.name item.now.labels) }
{
    let name = item.name.as_bytes();
    match &item.labels {
        None => push_keys(keys, alloc, question_code(Question::Value), own, name),
        Some(labels) => {
            let call = spelled(alloc, name, labels.as_slice())?;
            push_keys(keys, alloc, question_code(Question::Callable), own, name)?;
            push_keys(keys, alloc, CALL_CODE, own, call.as_slice())
        }
    }
}

/// The keys by which a declaration is found. The only error is want of memory.
pub(crate) fn keys_of(alloc: Global, item: &Declaration) -> Result<Items<Text>, NoMemory>
    ensures { IfOk result (λ keys. keys ≡ keys_of item.now) }
{
    let own = side_of(item.is_static);
    let named = question_code(Question::Named);
    let mut keys = Items::new(alloc);
    push_keys(&mut keys, alloc, named, own, item.name.as_bytes())?;
    push_by_labels(&mut keys, alloc, own, item)?;
    Ok(keys)
}
