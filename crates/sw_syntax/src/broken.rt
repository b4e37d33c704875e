//! The rule that the tokens of a source break first, as a sentence of a reader's nonterminal.

ghost use Rattle.std.specs.Prelude.{◌≡◌, ◌≤◌, ◌<◌, ℕ, drop, length, true, false, IfErr, IfOk, OnOk, Some};
ghost use Rattle.sw_grammar.specs.Reading.{rejected};
ghost use Rattle.sw_rules.specs.Pass.{IsCause, RefusesNone};
ghost use Rattle.sw_syntax.specs.Reaching.{OfCut, Says, Tells, IsAwaitTry, Below, NotBelow, Finds, Names};
ghost use Rattle.sw_syntax.specs.Meaning.{source_budget};
ghost use Rattle.sw_syntax.specs.Answering.{read_in};
ghost use Rattle.sw_syntax.specs.ReadResults.{reason};
ghost use Rattle.sw_syntax.specs.Finding.{IsFirstBroken};
ghost use Rattle.sw_syntax.specs.Refusals.{IsSentence, Refuses};
ghost use Rattle.sw_syntax.specs.Nonterminals.{Nonterminal, Sort};
ghost use Rattle.sw_syntax.specs.Tokens.{sighted};

use crate::class::Test;
use crate::reader::Reader;
use crate::view::{Stop, TokenView};
use std::alloc::Global;
use sw_base::NoMemory;
use sw_lex::{TokenKind, Tokens};
use sw_rules::{FrontError, Refusal, Rule};

/// How far a reading came, against the token at a position.
#[derive(Clone, Copy, Debug, PartialEq, Eq)]
pub enum Reach {
    /// Not beyond it.
    Short,
    /// To it, and for it the budget alone was exceeded.
    OverBudget,
    /// Beyond it.
    Beyond,
}

/// How far a reading from one place comes, against the token at another.
fn how_far<R: Reader>(
    alloc: Global,
    view: &TokenView,
    lenient: bool,
    at: usize,
    position: usize,
) -> Result<Reach, NoMemory>
    requires { at ≤ length view.now }
    ensures { IfOk result (λ reach. OfCut view.now at position (Says lenient R.nonterminal reach)) }
{
    match R::end(alloc, view, lenient, at) {
        Ok(end) => {
            if end > position {
                Ok(Reach::Beyond)
            } else {
                Ok(Reach::Short)
            }
        }
        Err(
            Stop::Refused {
                at: end,
                over: is_over_budget,
            },
        ) => {
            if end > position {
                return Ok(Reach::Beyond);
            }
            if end < position {
                return Ok(Reach::Short);
            }
            if is_over_budget {
                Ok(Reach::OverBudget)
            } else {
                Ok(Reach::Short)
            }
        }
        Err(Stop::NoMemory) => Err(NoMemory),
    }
}

/// Tells whether `await` stands before this position and `try` at it.
fn is_await_try(view: &TokenView, at: usize, position: usize) -> bool
    requires { at ≤ position }
    ensures told { result ≡ true → OfCut view.now at position IsAwaitTry }
    ensures otherwise { result ≡ false → OfCut view.now at position (λ run next. IsAwaitTry run next → ⊥) }
    ensures inside { result ≡ true → position < length view.now }
    ensures after { result ≡ true → at < position }
{
    if position == at {
        return false;
    }
    if !view.is(position - 1, Test::Is(TokenKind::Await)) {
        return false;
    }
    view.is(position, Test::Is(TokenKind::Try))
}

/// The rule that a comparison, or a `try` or `await`, at this position breaks, if the lenient grammar goes on with it.
fn chained<R: Reader>(
    alloc: Global,
    view: &TokenView,
    at: usize,
    position: usize,
) -> Result<Option<Rule>, NoMemory>
    requires { at ≤ length view.now }
    ensures { IfOk result (λ rule. OfCut view.now at position (Tells R.nonterminal rule)) }
{
    if view.is(position, Test::Binary(2)) {
        return match how_far::<R>(alloc, view, true, at, position)? {
            Reach::Short => Ok(None),
            Reach::OverBudget => Ok(Some(Rule::P3)),
            Reach::Beyond => Ok(Some(Rule::P5)),
        };
    }
    if !view.is(position, Test::Effect) {
        return Ok(None);
    }
    match how_far::<R>(alloc, view, true, at, position)? {
        Reach::Short => Ok(None),
        Reach::OverBudget => Ok(None),
        Reach::Beyond => Ok(Some(Rule::P6)),
    }
}

/// Tells whether the tokens from one position on begin a sentence up to another, if a line break stands before that.
fn is_viable_below<R: Reader>(
    alloc: Global,
    tokens: &Tokens,
    at: usize,
    position: usize,
) -> Result<bool, NoMemory>
    requires past { at ≤ position }
    requires inside { position < length tokens.now }
    ensures told { IfOk result (λ is. is ≡ true → Below R.nonterminal tokens.now at position) }
    ensures otherwise { IfOk result (λ is. is ≡ false → NotBelow R.nonterminal tokens.now at position) }
{
    let broken = TokenView::with_break(tokens, position);
    match how_far::<R>(alloc, &broken, false, at, position)? {
        Reach::Short => Ok(false),
        Reach::OverBudget => Ok(true),
        Reach::Beyond => Ok(true),
    }
}

/// The rule that the tokens from one position on break first, and its position, where the reader refuses them at another.
fn found_at<R: Reader>(
    alloc: Global,
    tokens: &Tokens,
    at: usize,
    position: usize,
    is_over_budget: bool,
) -> Result<(Rule, usize), NoMemory>
    requires inside { position < length tokens.now }
    requires refused { read_in false R.nonterminal source_budget (drop at (sighted tokens.now)) ≡ rejected (reason is_over_budget) (drop position (sighted tokens.now)) }
    ensures { IfOk result (λ found. Finds R.nonterminal tokens.now at (Some found)) }
{
    let view = TokenView::new(tokens);
    if is_await_try(&view, at, position) {
        return Ok((Rule::P4, position - 1));
    }
    if is_over_budget {
        return Ok((Rule::P3, position));
    }
    if is_viable_below::<R>(alloc, tokens, at, position)? {
        return Ok((Rule::P2, position));
    }
    match chained::<R>(alloc, &view, at, position)? {
        Some(rule) => Ok((rule, position)),
        None => Ok((Rule::P1, position)),
    }
}

/// The rule that the tokens from one position on break first, if they break one, and its position, where they are a sentence up to `end`.
fn found_after<R: Reader>(
    alloc: Global,
    tokens: &Tokens,
    at: usize,
    end: usize,
) -> Result<Option<(Rule, usize)>, NoMemory>
    requires inside { at < length tokens.now }
    requires text { (value : Sort R.nonterminal) × IsSentence R.nonterminal tokens.now at value end }
    ensures { IfOk result (λ found. Finds R.nonterminal tokens.now at found) }
{
    if end >= tokens.len() {
        return Ok(None);
    }
    let view = TokenView::new(tokens);
    if is_await_try(&view, at, end) {
        return Ok(Some((Rule::P4, end - 1)));
    }
    match chained::<R>(alloc, &view, at, end)? {
        Some(rule) => Ok(Some((rule, end))),
        None => Ok(None),
    }
}

/// A refusal by this rule, of the token at this position.
fn refusal(tokens: &Tokens, rule: Rule, position: usize) -> FrontError
    requires { position < length tokens.now }
    ensures names { Names tokens.now rule position result }
    ensures cause { (s : Nonterminal) (at : ℕ) → IsFirstBroken s tokens.now at rule position
        → IsCause (Refuses s tokens.now at) result }
{
    FrontError::Refused(Refusal {
        rule,
        span: tokens.at(position).span,
    })
}

/// Why the tokens from one position on are no sentence, where the reader refuses them at another: the first rule that they
/// break, at its token. The only other error is want of memory.
pub fn refused_at<R: Reader>(
    alloc: Global,
    tokens: &Tokens,
    at: usize,
    position: usize,
    is_over_budget: bool,
) -> FrontError
    requires inside { position < length tokens.now }
    requires refused { read_in false R.nonterminal source_budget (drop at (sighted tokens.now)) ≡ rejected (reason is_over_budget) (drop position (sighted tokens.now)) }
    ensures { IsCause (Refuses R.nonterminal tokens.now at) result }
{
    match found_at::<R>(alloc, tokens, at, position, is_over_budget) {
        Ok((rule, found)) => refusal(tokens, rule, found),
        Err(NoMemory) => FrontError::NoMemory,
    }
}

/// Tells that the tokens from one position on, which are a sentence up to `end`, break no rule with the token after it. It is
/// refused by the first rule that they break, at its token. The only other error is want of memory.
pub fn unbroken_after<R: Reader>(
    alloc: Global,
    tokens: &Tokens,
    at: usize,
    end: usize,
) -> Result<(), FrontError>
    requires inside { at < length tokens.now }
    requires text { (value : Sort R.nonterminal) × IsSentence R.nonterminal tokens.now at value end }
    ensures unbroken { OnOk result (RefusesNone (Refuses R.nonterminal tokens.now at)) }
    ensures refused { IfErr result (λ error. IsCause (Refuses R.nonterminal tokens.now at) error) }
{
    match found_after::<R>(alloc, tokens, at, end)? {
        Some((rule, position)) => Err(refusal(tokens, rule, position)),
        None => Ok(()),
    }
}
