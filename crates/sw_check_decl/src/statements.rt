//! T7 at the types that statements write.

ghost use Rattle.std.specs.Prelude.{◌≡◌, ◌++◌};
ghost use Rattle.std.specs.List.{flat_map};
ghost use Rattle.sw_findings.specs.Found.{keep_all};
ghost use Rattle.sw_check_decl.specs.TypesInSource.{block_broken, caught_broken, perhaps, stmt_broken};

use crate::written_types::{report_declared, report_type_name};
use sqlite_items::Items;
use sw_declared::{Members, Names};
use sw_findings::Findings;
use sw_tree::{Branch, Catch, CatchPattern, Stmt, SwitchArm};

/// T7 in a statement.
#[cycle(stmt)]
#[tactic(auto, using(crate::proofs::StmtLevels::stmt_rules))]
fn report_stmt(found: &mut Findings, names: &Names, own: &Members, x: &Stmt)
    ensures { found.new ≡ keep_all found.old (stmt_broken names.now own.now x.now) }
{
    match x {
        Stmt::Local(_, _, _, declared, _) => report_declared(found, names, own, declared),
        Stmt::If(first, others, otherwise) => {
            report_block(found, names, own, &first.body);
            report_branches(found, names, own, others);
            match otherwise {
                None => {}
                Some(body) => report_block(found, names, own, body),
            }
        }
        Stmt::Guard(_, _, body) | Stmt::While(_, _, body) | Stmt::For(_, _, _, _, body) => {
            report_block(found, names, own, body);
        }
        Stmt::Switch(_, _, arms) => report_arms(found, names, own, arms),
        Stmt::Do(_, body, catches) => {
            report_block(found, names, own, body);
            report_catches(found, names, own, catches);
        }
        Stmt::Assign(_, _, _, _)
        | Stmt::Discard(_, _)
        | Stmt::Expr(_)
        | Stmt::Return(_, _)
        | Stmt::Throw(_, _)
        | Stmt::Break(_)
        | Stmt::Continue(_) => {}
    }
}

#[cycle(stmt)]
fn report_branches(found: &mut Findings, names: &Names, own: &Members, branches: &Items<Branch>)
    ensures { found.new ≡ keep_all found.old (flat_map (λ x. block_broken names.now own.now x.body) branches.now) }
{
    for branch in branches.as_slice() {
        report_block(found, names, own, &branch.body);
    }
}

#[cycle(stmt)]
fn report_arms(found: &mut Findings, names: &Names, own: &Members, arms: &Items<SwitchArm>)
    ensures { found.new ≡ keep_all found.old (flat_map (λ x. block_broken names.now own.now x.body) arms.now) }
{
    for arm in arms.as_slice() {
        report_block(found, names, own, &arm.body);
    }
}

/// T7 in the pattern of a `catch`, where there is one.
#[tactic(auto, using(crate::proofs::Findings::keep_none))]
fn report_caught(found: &mut Findings, names: &Names, own: &Members, pattern: &Option<CatchPattern>)
    ensures { found.new ≡ keep_all found.old (perhaps (caught_broken names.now own.now) pattern.now) }
{
    match pattern {
        None | Some(CatchPattern::Case(_, _, _)) => {}
        Some(CatchPattern::As(_, of)) => report_type_name(found, names, own, of),
    }
}

/// T7 in a `catch`.
#[cycle(stmt)]
#[tactic(auto, using(crate::proofs::Findings::keep_append))]
fn report_catch(found: &mut Findings, names: &Names, own: &Members, x: &Catch)
    ensures { found.new ≡ keep_all found.old (perhaps (caught_broken names.now own.now) x.now.pattern ++ block_broken names.now own.now x.now.body) }
{
    report_caught(found, names, own, &x.pattern);
    report_block(found, names, own, &x.body);
}

#[cycle(stmt)]
fn report_catches(found: &mut Findings, names: &Names, own: &Members, catches: &Items<Catch>)
    ensures { found.new ≡ keep_all found.old (flat_map (λ x. perhaps (caught_broken names.now own.now) x.pattern ++ block_broken names.now own.now x.body) catches.now) }
{
    for catch in catches.as_slice() {
        report_catch(found, names, own, catch);
    }
}

/// T7 in the statements of a block.
#[cycle(stmt)]
pub(crate) fn report_block(found: &mut Findings, names: &Names, own: &Members, body: &Items<Stmt>)
    ensures { found.new ≡ keep_all found.old (block_broken names.now own.now body.now) }
{
    for x in body.as_slice() {
        report_stmt(found, names, own, x);
    }
}
