//! Writes statements and blocks.

ghost use Rattle.std.specs.Prelude.{◌≡◌, [], ◌∷◌, ◌++◌, map, OnOk};
ghost use Rattle.sw_lex.specs.declared.token.TokenKind.TheVariants as TokenKindValue;
ghost use Rattle.sw_layout.specs.declared.gap.Gap.TheVariants as GapValue;
ghost use Rattle.sw_layout.specs.Words.{plain, words_text};
ghost use Rattle.sw_print.specs.Expressions.{perhaps};
ghost use Rattle.sw_print.specs.Statements.{arm_words, block_words, branch_words, catch_pattern_words, catch_words, catches_words, else_ifs, lines, separated, stmt_words};

use crate::clauses::{
    write_assign, write_conditions, write_for, write_initial, write_local, write_return,
    write_with_value,
};
use crate::expressions::write_expr;
use crate::first_words::stmt_begins_with_dot;
use crate::page::Page;
use crate::patterns::{write_arm_label, write_catch_pattern};
use sw_base::NoMemory;
use sw_layout::Gap;
use sw_lex::TokenKind;
use sw_tree::{Branch, Catch, CatchPattern, Stmt, SwitchArm};

/// Writes a statement.
#[cycle(stmt)]
#[tactic(auto, using(crate::proofs::StmtWords::stmt_rules))]
pub fn write_stmt(page: &mut Page, x: &Stmt, before: Gap) -> Result<(), NoMemory>
    ensures { OnOk result (page.new ≡ page.old ++ words_text (stmt_words x.now before)) }
{
    match x {
        Stmt::Local(_, binding, name, declared, value) => {
            write_local(page, *binding, name, declared, value, before)
        }
        Stmt::Assign(to, operator, _, value) => write_assign(page, to, *operator, value, before),
        Stmt::Discard(_, value) => {
            page.plain(TokenKind::Underscore, before)?;
            write_initial(page, value)
        }
        Stmt::Expr(value) => write_expr(page, value, before),
        Stmt::If(first, others, otherwise) => {
            write_branch(page, first, before)?;
            write_else_ifs(page, others.as_slice())?;
            match otherwise {
                None => Ok(()),
                Some(body) => write_else(page, body.as_slice()),
            }
        }
        Stmt::Guard(_, conditions, body) => {
            write_conditions(page, TokenKind::Guard, conditions.as_slice(), before)?;
            write_else(page, body.as_slice())
        }
        Stmt::While(_, conditions, body) => {
            write_conditions(page, TokenKind::While, conditions.as_slice(), before)?;
            write_block(page, body.as_slice())
        }
        Stmt::For(_, name, first, last, body) => {
            write_for(page, name, first, last, before)?;
            write_block(page, body.as_slice())
        }
        Stmt::Switch(_, subject, arms) => {
            write_with_value(page, TokenKind::Switch, subject, before)?;
            page.plain(TokenKind::LeftBrace, Gap::Space)?;
            for arm in arms.as_slice() {
                write_arm(page, arm)?;
            }
            page.plain(TokenKind::RightBrace, Gap::Line)
        }
        Stmt::Do(_, body, catches) => {
            page.plain(TokenKind::Do, before)?;
            write_block(page, body.as_slice())?;
            write_catches(page, catches.as_slice())
        }
        Stmt::Return(_, value) => write_return(page, value, before),
        Stmt::Throw(_, value) => write_with_value(page, TokenKind::Throw, value, before),
        Stmt::Break(_) => page.plain(TokenKind::Break, before),
        Stmt::Continue(_) => page.plain(TokenKind::Continue, before),
    }
}

/// Writes an `if` with its block.
#[cycle(stmt)]
#[tactic(auto, using(crate::proofs::TextLemmas::text_rules))]
fn write_branch(page: &mut Page, branch: &Branch, before: Gap) -> Result<(), NoMemory>
    ensures { OnOk result (page.new ≡ page.old ++ words_text (branch_words branch.now before)) }
{
    write_conditions(page, TokenKind::If, branch.conditions.as_slice(), before)?;
    write_block(page, branch.body.as_slice())
}

/// Writes each `if` after an `else`.
#[cycle(stmt)]
fn write_else_ifs(page: &mut Page, branches: &[Branch]) -> Result<(), NoMemory>
    ensures { OnOk result (page.new ≡ page.old ++ words_text (else_ifs (map branch_words branches.now))) }
{
    for branch in branches {
        page.plain(TokenKind::Else, Gap::Space)?;
        write_branch(page, branch, Gap::Space)?;
    }
    Ok(())
}

/// Writes a block after its `else`.
#[cycle(stmt)]
#[tactic(auto, using(crate::proofs::TextLemmas::text_rules))]
fn write_else(page: &mut Page, body: &[Stmt]) -> Result<(), NoMemory>
    ensures { OnOk result (page.new ≡ page.old ++ words_text (plain TokenKindValue.Else GapValue.Space ∷ block_words body.now)) }
{
    page.plain(TokenKind::Else, Gap::Space)?;
    write_block(page, body)
}

/// Writes an arm of a `switch`.
#[cycle(stmt)]
#[tactic(auto, using(crate::proofs::TextLemmas::text_rules))]
fn write_arm(page: &mut Page, arm: &SwitchArm) -> Result<(), NoMemory>
    ensures { OnOk result (page.new ≡ page.old ++ words_text (arm_words arm.now GapValue.Line)) }
{
    write_arm_label(page, &arm.label, Gap::Line)?;
    write_statements(page, arm.body.as_slice())
}

/// Writes the catches of a `do`.
#[cycle(stmt)]
fn write_catches(page: &mut Page, catches: &[Catch]) -> Result<(), NoMemory>
    ensures { OnOk result (page.new ≡ page.old ++ words_text (catches_words (map catch_words catches.now))) }
{
    for catch in catches {
        write_catch(page, catch)?;
    }
    Ok(())
}

/// Writes a `catch` with its block.
#[cycle(stmt)]
#[tactic(auto, using(crate::proofs::TextLemmas::text_rules))]
fn write_catch(page: &mut Page, catch: &Catch) -> Result<(), NoMemory>
    ensures { OnOk result (page.new ≡ page.old ++ words_text (catch_words catch.now GapValue.Space)) }
{
    page.plain(TokenKind::Catch, Gap::Space)?;
    write_caught(page, &catch.pattern)?;
    write_block(page, catch.body.as_slice())
}

/// Writes the pattern of a `catch`, where there is one.
fn write_caught(page: &mut Page, pattern: &Option<CatchPattern>) -> Result<(), NoMemory>
    ensures { OnOk result (page.new ≡ page.old ++ words_text (perhaps (λ pattern. catch_pattern_words pattern GapValue.Space) pattern.now)) }
{
    match pattern {
        None => Ok(()),
        Some(pattern) => write_catch_pattern(page, pattern, Gap::Space),
    }
}

/// Writes statements between braces.
#[cycle(stmt)]
#[tactic(auto, using(crate::proofs::TextLemmas::text_rules))]
pub fn write_block(page: &mut Page, body: &[Stmt]) -> Result<(), NoMemory>
    ensures { OnOk result (page.new ≡ page.old ++ words_text (block_words body.now)) }
{
    page.plain(TokenKind::LeftBrace, Gap::Space)?;
    write_statements(page, body)?;
    page.plain(TokenKind::RightBrace, Gap::Line)
}

/// Writes statements, of which the first has a line of its own.
#[cycle(stmt)]
fn write_statements(page: &mut Page, body: &[Stmt]) -> Result<(), NoMemory>
    ensures { OnOk result (page.new ≡ page.old ++ words_text (lines (map stmt_words body.now))) }
{
    match body {
        [] => Ok(()),
        [first, others @ ..] => {
            write_stmt(page, first, Gap::Line)?;
            for other in others {
                write_separated(page, other)?;
            }
            Ok(())
        }
    }
}

/// Writes a statement after another: on a line of its own, or after `;` where it begins with `.`.
#[cycle(stmt)]
#[tactic(auto, using(crate::proofs::TextLemmas::text_rules))]
fn write_separated(page: &mut Page, x: &Stmt) -> Result<(), NoMemory>
    ensures { OnOk result (page.new ≡ page.old ++ words_text (separated (stmt_words x.now))) }
{
    if stmt_begins_with_dot(x) {
        page.plain(TokenKind::Semicolon, Gap::Space)?;
        write_stmt(page, x, Gap::Space)
    } else {
        write_stmt(page, x, Gap::Line)
    }
}
