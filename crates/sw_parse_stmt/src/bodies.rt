//! Blocks, and the statements of a body.

ghost use Rattle.std.specs.Prelude.{◌≡◌, ◌<◌, ◌≤◌, List, [], drop, length, true};
ghost use Rattle.sw_grammar.specs.Reading.{at_first};
ghost use Rattle.sw_parse_stmt.specs.Statements.{ended, statement_list, stepped};
ghost use Rattle.sw_syntax.specs.Bodies.{body_from};
ghost use Rattle.sw_syntax.specs.Answering.{read};
ghost use Rattle.sw_syntax.specs.ReadResults.{Gives, GoesOn, Inside, Moves, Stays};
ghost use Rattle.sw_syntax.specs.Nonterminals.{Context};
ghost use Rattle.sw_syntax.specs.Nonterminals as nonterminal;
ghost use Rattle.sw_syntax.specs.Tables.{starts_stmt};
ghost use Rattle.sw_tree.specs.declared.stmt.Stmt.{Stmt as StmtTree};

use crate::nested::closed_statement;
use crate::simple::open_statement;
use crate::steps::{Step, returned, separator};
use sqlite_items::Items;
use std::alloc::Global;
use sw_lex::TokenKind;
use sw_syntax::{Budget, Opening, Read, Stop, Test, TokenView, stands, trimmed};
use sw_tree::Block;

/// Statements of a body, and whether an arm of a `switch` follows them.
#[derive(Debug, Drop)]
pub struct ReadBody {
    pub block: Block,
    pub before_arm: bool,
}

/// The block at this position: statements between braces.
#[cycle(stmt)]
pub fn block(
    alloc: Global,
    view: &TokenView,
    lenient: bool,
    at: usize,
    budget: Budget,
) -> Read<Block>
    requires { at ≤ length view.now }
    ensures gives { Gives view.now result (read lenient nonterminal.Block budget.brackets budget.limit budget.left (drop at view.now)) }
    ensures moves { Moves at result }
    ensures inside { Inside (length view.now) result }
{
    if !view.is(at, Test::Is(TokenKind::LeftBrace)) {
        return Err(Stop::Refused { at, over: false });
    }
    if budget.brackets == 0 {
        return Err(Stop::Refused { at, over: true });
    }
    let (_, next) = view.take(at);
    let inner = Budget {
        brackets: budget.brackets - 1,
        ..budget
    };
    let (read_body, end, left) = body(alloc, view, lenient, next, inner)?;
    let (_, after) = view.expect(end, Test::Is(TokenKind::RightBrace))?;
    let kept = trimmed(alloc, read_body.block)?;
    Ok((kept, after, left))
}

/// The statements at this position, up to where none begins.
pub fn statements(
    alloc: Global,
    view: &TokenView,
    lenient: bool,
    at: usize,
    budget: Budget,
) -> Read<Block>
    requires { at ≤ length view.now }
    ensures gives { Gives view.now result (statement_list lenient budget.brackets budget.limit budget.left (drop at view.now)) }
    ensures stays { Stays at result }
    ensures inside { Inside (length view.now) result }
{
    let (read_body, end, left) = body(alloc, view, lenient, at, budget)?;
    let kept = trimmed(alloc, read_body.block)?;
    Ok((kept, end, left))
}

/// The statements of a body, perhaps none. They are read alike in a block and in an arm of a `switch`.
#[cycle(stmt)]
pub fn body(
    alloc: Global,
    view: &TokenView,
    lenient: bool,
    at: usize,
    budget: Budget,
) -> Read<ReadBody>
    requires { at ≤ length view.now }
    ensures gives { (context : Context) → GoesOn (ended lenient context budget.brackets budget.limit) view.now result (body_from lenient context budget.brackets budget.limit budget.left [] (drop at view.now)) }
    ensures stays { Stays at result }
    ensures inside { Inside (length view.now) result }
{
    let mut block = Items::new(alloc);
    let mut end = at;
    let mut left = budget.left;
    'statements: while stands(view, end, Opening::Statement) {
        let (step, step_end, step_left) = statement(
            alloc,
            view,
            lenient,
            end,
            Budget { left, ..budget },
        )?;
        block.push(step.statement)?;
        end = step_end;
        left = step_left;
        if !step.goes_on {
            let before_arm = false;
            return Ok((ReadBody { block, before_arm }, end, left));
        }
    }
    let before_arm = stands(view, end, Opening::Arm);
    Ok((ReadBody { block, before_arm }, end, left))
}

/// A statement of a body, and whether others may follow it.
#[cycle(stmt)]
fn statement(
    alloc: Global,
    view: &TokenView,
    lenient: bool,
    at: usize,
    budget: Budget,
) -> Read<Step>
    requires { at_first starts_stmt (drop at view.now) ≡ true }
    ensures gives { (context : Context) (xs : List StmtTree) → GoesOn (stepped lenient context budget.brackets budget.limit xs) view.now result (body_from lenient context budget.brackets budget.limit budget.left xs (drop at view.now)) }
    ensures moves { Moves at result }
    ensures inside { Inside (length view.now) result }
{
    if stands(view, at, Opening::OpenStatement) {
        let (statement, end, left) = open_statement(alloc, view, lenient, at, budget)?;
        let is_below = stands(view, end, Opening::BelowOpen);
        let (goes_on, after) = separator(view, end, is_below);
        return Ok((Step { statement, goes_on }, after, left));
    }
    if stands(view, at, Opening::ClosedStatement) {
        let (statement, end, left) = closed_statement(alloc, view, lenient, at, budget)?;
        let is_below = stands(view, end, Opening::BelowClosed);
        let (goes_on, after) = separator(view, end, is_below);
        return Ok((Step { statement, goes_on }, after, left));
    }
    returned(alloc, view, lenient, at, budget)
}
