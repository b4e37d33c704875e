//! Statements and blocks. The only error is want of memory.

ghost use Rattle.std.specs.Prelude.{◌≡◌, [], ◌∷◌, ◌++◌, OnOk};
ghost use Rattle.sw_scope.specs.Events.{binds, closes, each, perhaps, scope};
ghost use Rattle.sw_scope.specs.Walk.{run};
ghost use Rattle.sw_events.specs.Bodies.{block_events, branch_events, catch_events, condition_events, expr_events, stmt_events, switch_arm_events, type_events};

use crate::expressions::{expr, walk_value};
use crate::patterns::{walk_caught, walk_conditions, walk_patterns};
use crate::types::walk_declared;
use sqlite_items::Items;
use std::alloc::Global;
use sw_base::NoMemory;
use sw_scope::{Around, Seen, bind, close, open};
use sw_tree::{ArmLabel, Branch, Catch, Condition, Expr, Name, RangeEnd, Stmt, SwitchArm, Type};

/// Walks over the declaration of a local name.
#[tactic(auto, using(crate::proofs::Runs::run_rules))]
fn walk_local(
    around: &Around<'_>,
    seen: &mut Seen,
    name: &Name,
    declared: &Option<Type>,
    value: &Expr,
) -> Result<(), NoMemory>
    ensures { OnOk result (seen.new ≡ run around.now (perhaps type_events declared.now ++ (expr_events value.now ++ binds name.now ∷ [])) seen.old) }
{
    walk_declared(around, seen, declared);
    expr(around, seen, value)?;
    bind(around, seen, name)
}

/// Walks over an assignment.
#[tactic(auto, using(crate::proofs::Runs::run_rules))]
fn walk_assign(
    around: &Around<'_>,
    seen: &mut Seen,
    to: &Expr,
    value: &Expr,
) -> Result<(), NoMemory>
    ensures { OnOk result (seen.new ≡ run around.now (expr_events to.now ++ expr_events value.now) seen.old) }
{
    expr(around, seen, to)?;
    expr(around, seen, value)
}

/// Walks over the second end of a range, where there is one.
#[tactic(auto, using(crate::proofs::Runs::run_rules))]
fn walk_end(around: &Around<'_>, seen: &mut Seen, end: &Option<RangeEnd>) -> Result<(), NoMemory>
    ensures { OnOk result (seen.new ≡ run around.now (perhaps (λ end. expr_events end.value) end.now) seen.old) }
{
    match end {
        None => Ok(()),
        Some(end) => expr(around, seen, &end.value),
    }
}

/// Walks over the name of a `for`, where there is one.
#[tactic(auto, using(crate::proofs::Runs::run_rules))]
fn walk_loop_name(around: &Around<'_>, seen: &mut Seen, name: &Option<Name>) -> Result<(), NoMemory>
    ensures { OnOk result (seen.new ≡ run around.now (perhaps (λ name. binds name ∷ []) name.now) seen.old) }
{
    match name {
        None => Ok(()),
        Some(name) => bind(around, seen, name),
    }
}

/// Walks over what a `for` goes through: an array, or the two ends of a range.
#[tactic(auto, using(crate::proofs::Runs::run_rules))]
fn walk_range(
    around: &Around<'_>,
    seen: &mut Seen,
    first: &Expr,
    last: &Option<RangeEnd>,
) -> Result<(), NoMemory>
    ensures { OnOk result (seen.new ≡ run around.now (expr_events first.now ++ perhaps (λ end. expr_events end.value) last.now) seen.old) }
{
    expr(around, seen, first)?;
    walk_end(around, seen, last)
}

/// Walks over a statement.
#[cycle(stmt)]
#[tactic(auto, using(crate::proofs::StmtEvents::stmt_rules))]
fn stmt(alloc: Global, around: &Around<'_>, seen: &mut Seen, x: &Stmt) -> Result<(), NoMemory>
    ensures { OnOk result (seen.new ≡ run around.now (stmt_events x.now) seen.old) }
{
    match x {
        Stmt::Local(_, _, name, declared, value) => walk_local(around, seen, name, declared, value),
        Stmt::Assign(to, _, _, value) => walk_assign(around, seen, to, value),
        Stmt::Discard(_, value) | Stmt::Throw(_, value) => expr(around, seen, value),
        Stmt::Expr(value) => expr(around, seen, value),
        Stmt::If(first, others, otherwise) => {
            walk_branch(alloc, around, seen, first)?;
            walk_branches(alloc, around, seen, others)?;
            match otherwise {
                None => Ok(()),
                Some(body) => walk_block(alloc, around, seen, body),
            }
        }
        Stmt::Guard(_, conditions, body) => {
            walk_block(alloc, around, seen, body)?;
            walk_conditions(around, seen, conditions.as_slice())
        }
        Stmt::While(_, conditions, body) => walk_while(alloc, around, seen, conditions, body),
        Stmt::For(_, name, first, last, body) => {
            walk_range(around, seen, first, last)?;
            open(around, seen)?;
            walk_loop_name(around, seen, name)?;
            walk_closing(alloc, around, seen, body)
        }
        Stmt::Switch(_, subject, arms) => {
            expr(around, seen, subject)?;
            walk_arms(alloc, around, seen, arms)
        }
        Stmt::Do(_, body, catches) => {
            walk_block(alloc, around, seen, body)?;
            walk_catches(alloc, around, seen, catches)
        }
        Stmt::Return(_, value) => walk_value(around, seen, value),
        Stmt::Break(_) | Stmt::Continue(_) => Ok(()),
    }
}

/// Walks over conditions and the block that they guard.
#[cycle(stmt)]
#[tactic(auto, using(crate::proofs::Runs::run_rules))]
fn walk_while(
    alloc: Global,
    around: &Around<'_>,
    seen: &mut Seen,
    conditions: &Items<Condition>,
    body: &Items<Stmt>,
) -> Result<(), NoMemory>
    ensures { OnOk result (seen.new ≡ run around.now (scope (each condition_events conditions.now ++ block_events body.now)) seen.old) }
{
    open(around, seen)?;
    walk_conditions(around, seen, conditions.as_slice())?;
    walk_closing(alloc, around, seen, body)
}

/// Walks over a block, and ends the scope round it.
#[cycle(stmt)]
#[tactic(auto, using(crate::proofs::Runs::run_rules))]
fn walk_closing(
    alloc: Global,
    around: &Around<'_>,
    seen: &mut Seen,
    body: &Items<Stmt>,
) -> Result<(), NoMemory>
    ensures { OnOk result (seen.new ≡ run around.now (block_events body.now ++ closes ∷ []) seen.old) }
{
    walk_block(alloc, around, seen, body)?;
    close(around, seen);
    Ok(())
}

/// Walks over an `if`, without what follows its `else`.
#[cycle(stmt)]
#[tactic(auto, using(crate::proofs::Runs::run_rules))]
fn walk_branch(
    alloc: Global,
    around: &Around<'_>,
    seen: &mut Seen,
    x: &Branch,
) -> Result<(), NoMemory>
    ensures { OnOk result (seen.new ≡ run around.now (branch_events x.now) seen.old) }
{
    walk_while(alloc, around, seen, &x.conditions, &x.body)
}

#[cycle(stmt)]
fn walk_branches(
    alloc: Global,
    around: &Around<'_>,
    seen: &mut Seen,
    branches: &Items<Branch>,
) -> Result<(), NoMemory>
    ensures { OnOk result (seen.new ≡ run around.now (each branch_events branches.now) seen.old) }
{
    for branch in branches.as_slice() {
        walk_branch(alloc, around, seen, branch)?;
    }
    Ok(())
}

/// Walks over an arm of a `switch`.
#[cycle(stmt)]
#[tactic(auto, using(crate::proofs::Runs::run_rules))]
fn walk_arm(
    alloc: Global,
    around: &Around<'_>,
    seen: &mut Seen,
    x: &SwitchArm,
) -> Result<(), NoMemory>
    ensures { OnOk result (seen.new ≡ run around.now (switch_arm_events x.now) seen.old) }
{
    match &x.label {
        ArmLabel::Default => walk_block(alloc, around, seen, &x.body),
        ArmLabel::Case(patterns) => {
            open(around, seen)?;
            walk_patterns(around, seen, patterns.as_slice())?;
            if patterns.len() == 1 {
                walk_closing(alloc, around, seen, &x.body)
            } else {
                close(around, seen);
                walk_block(alloc, around, seen, &x.body)
            }
        }
    }
}

#[cycle(stmt)]
fn walk_arms(
    alloc: Global,
    around: &Around<'_>,
    seen: &mut Seen,
    arms: &Items<SwitchArm>,
) -> Result<(), NoMemory>
    ensures { OnOk result (seen.new ≡ run around.now (each switch_arm_events arms.now) seen.old) }
{
    for arm in arms.as_slice() {
        walk_arm(alloc, around, seen, arm)?;
    }
    Ok(())
}

/// Walks over a `catch`.
#[cycle(stmt)]
#[tactic(auto, using(crate::proofs::Runs::run_rules))]
fn walk_catch(
    alloc: Global,
    around: &Around<'_>,
    seen: &mut Seen,
    x: &Catch,
) -> Result<(), NoMemory>
    ensures { OnOk result (seen.new ≡ run around.now (catch_events x.now) seen.old) }
{
    open(around, seen)?;
    walk_caught(alloc, around, seen, x.span, &x.pattern)?;
    walk_closing(alloc, around, seen, &x.body)
}

#[cycle(stmt)]
fn walk_catches(
    alloc: Global,
    around: &Around<'_>,
    seen: &mut Seen,
    catches: &Items<Catch>,
) -> Result<(), NoMemory>
    ensures { OnOk result (seen.new ≡ run around.now (each catch_events catches.now) seen.old) }
{
    for catch in catches.as_slice() {
        walk_catch(alloc, around, seen, catch)?;
    }
    Ok(())
}

/// Walks over statements between braces.
#[cycle(stmt)]
#[tactic(auto, using(crate::proofs::StmtEvents::block_rules))]
pub fn walk_block(
    alloc: Global,
    around: &Around<'_>,
    seen: &mut Seen,
    body: &Items<Stmt>,
) -> Result<(), NoMemory>
    ensures { OnOk result (seen.new ≡ run around.now (block_events body.now) seen.old) }
{
    open(around, seen)?;
    walk_statements(alloc, around, seen, body)?;
    close(around, seen);
    Ok(())
}

#[cycle(stmt)]
fn walk_statements(
    alloc: Global,
    around: &Around<'_>,
    seen: &mut Seen,
    body: &Items<Stmt>,
) -> Result<(), NoMemory>
    ensures { OnOk result (seen.new ≡ run around.now (each stmt_events body.now) seen.old) }
{
    for x in body.as_slice() {
        stmt(alloc, around, seen, x)?;
    }
    Ok(())
}
