//! Patterns and conditions. The only error is want of memory.

ghost use Rattle.std.specs.Prelude.{◌≡◌, [], ◌∷◌, OnOk};
ghost use Rattle.sw_scope.specs.Events.{each, perhaps, types};
ghost use Rattle.sw_scope.specs.Walk.{run};
ghost use Rattle.sw_events.specs.Bodies.{bind_events, caught_events, condition_events, pattern_events};

use crate::expressions::{expr, literal};
use sqlite_items::Items;
use std::alloc::Global;
use sw_base::{NoMemory, Span, Text};
use sw_scope::{Around, Seen, bind, name_type, read};
use sw_tree::{Bind, CatchPattern, Condition, Name, Pattern};

/// Walks over what a pattern does with one part of a payload.
#[tactic(auto, using(crate::proofs::Runs::run_rules))]
fn walk_bind(around: &Around<'_>, seen: &mut Seen, x: &Bind) -> Result<(), NoMemory>
    ensures { OnOk result (seen.new ≡ run around.now (bind_events x.now) seen.old) }
{
    match x {
        Bind::Let(name) => bind(around, seen, name),
        Bind::Any => Ok(()),
    }
}

fn walk_binds(around: &Around<'_>, seen: &mut Seen, binds: &[Bind]) -> Result<(), NoMemory>
    ensures { OnOk result (seen.new ≡ run around.now (each bind_events binds.now) seen.old) }
{
    for item in binds {
        walk_bind(around, seen, item)?;
    }
    Ok(())
}

/// Walks over the parts of a payload, where there are brackets.
#[tactic(auto, using(crate::proofs::Runs::run_rules))]
fn walk_payload(
    around: &Around<'_>,
    seen: &mut Seen,
    parts: &Option<Items<Bind>>,
) -> Result<(), NoMemory>
    ensures { OnOk result (seen.new ≡ run around.now (perhaps (each bind_events) parts.now) seen.old) }
{
    match parts {
        None => Ok(()),
        Some(parts) => walk_binds(around, seen, parts.as_slice()),
    }
}

/// Walks over the name of a type, where there is one.
#[tactic(auto, using(crate::proofs::Runs::run_rules))]
fn walk_of(around: &Around<'_>, seen: &mut Seen, of: &Option<Name>)
    ensures { seen.new ≡ run around.now (perhaps (λ name. types name ∷ []) of.now) seen.old }
{
    match of {
        None => {}
        Some(name) => name_type(around, seen, name),
    }
}

/// Walks over a pattern of a `case`.
#[tactic(auto, using(crate::proofs::Runs::run_rules))]
fn walk_pattern(around: &Around<'_>, seen: &mut Seen, x: &Pattern) -> Result<(), NoMemory>
    ensures { OnOk result (seen.new ≡ run around.now (pattern_events x.now) seen.old) }
{
    match x {
        Pattern::Any(_) | Pattern::Nil(_) => Ok(()),
        Pattern::Literal(_, value) => literal(around, seen, value),
        Pattern::Case(of, _, _, parts) => {
            walk_of(around, seen, of);
            walk_payload(around, seen, parts)
        }
    }
}

/// Walks over the patterns of a `case`.
pub fn walk_patterns(
    around: &Around<'_>,
    seen: &mut Seen,
    patterns: &[Pattern],
) -> Result<(), NoMemory>
    ensures { OnOk result (seen.new ≡ run around.now (each pattern_events patterns.now) seen.old) }
{
    for pattern in patterns {
        walk_pattern(around, seen, pattern)?;
    }
    Ok(())
}

/// Walks over what a `catch` at this place binds.
#[tactic(auto, using(crate::proofs::Runs::run_rules))]
pub fn walk_caught(
    alloc: Global,
    around: &Around<'_>,
    seen: &mut Seen,
    at: Span,
    x: &Option<CatchPattern>,
) -> Result<(), NoMemory>
    ensures { OnOk result (seen.new ≡ run around.now (caught_events at x.now) seen.old) }
{
    match x {
        None => {
            let text = Text::from_bytes(alloc, b"error")?;
            bind(around, seen, &Name { text, span: at })
        }
        Some(CatchPattern::As(name, of)) => {
            name_type(around, seen, of);
            bind(around, seen, name)
        }
        Some(CatchPattern::Case(of, _, parts)) => {
            name_type(around, seen, of);
            walk_payload(around, seen, parts)
        }
    }
}

/// Walks over a condition. A name without a value is read and bound.
#[tactic(auto, using(crate::proofs::Runs::run_rules))]
fn walk_condition(around: &Around<'_>, seen: &mut Seen, x: &Condition) -> Result<(), NoMemory>
    ensures { OnOk result (seen.new ≡ run around.now (condition_events x.now) seen.old) }
{
    match x {
        Condition::Expr(x) => expr(around, seen, x),
        Condition::Bind(_, name, Some(value)) => {
            expr(around, seen, value)?;
            bind(around, seen, name)
        }
        Condition::Bind(_, name, None) => {
            read(around, seen, name, None)?;
            bind(around, seen, name)
        }
    }
}

/// Walks over conditions.
pub fn walk_conditions(
    around: &Around<'_>,
    seen: &mut Seen,
    conditions: &[Condition],
) -> Result<(), NoMemory>
    ensures { OnOk result (seen.new ≡ run around.now (each condition_events conditions.now) seen.old) }
{
    for condition in conditions {
        walk_condition(around, seen, condition)?;
    }
    Ok(())
}
