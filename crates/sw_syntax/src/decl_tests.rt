//! What statements and declarations look at in a token.

ghost use Rattle.std.specs.Prelude.{◌≡◌, ◌<◌, ℕ, drop, length, true};
ghost use Rattle.sw_grammar.specs.Reading.{at_first, one};
ghost use Rattle.sw_syntax.specs.DeclTests.{stands, starts_bind};
ghost use Rattle.sw_syntax.specs.Bodies.{is_returned};
ghost use Rattle.sw_syntax.specs.Grammar.{begins_below};
ghost use Rattle.sw_syntax.specs.ReadResults.{Gives, Moves, Inside, met};
ghost use Rattle.sw_syntax.specs.Nonterminals as nonterminal;
ghost use Rattle.sw_syntax.specs.Tables as table;
ghost use Rattle.sw_syntax.specs.Tests as spec;

use crate::class::{Class, Sight};
use crate::view::{Stop, TokenView};
use sw_lex::{TokenKind, TokenRef};

/// A test of a token that statements and declarations make.
#[derive(Clone, Copy, Debug, PartialEq, Eq)]
pub enum Opening {
    /// A modifier of a declaration.
    Modifier,
    /// The name `actor`.
    Actor,
    /// The name `get`.
    Get,
    /// The name `get` before its block.
    GetBlock,
    /// `else` before anything but `if`.
    Else,
    /// `else` before `if`.
    ElseIf,
    /// `else`.
    AnyElse,
    /// The first token of its line.
    NewLine,
    /// The mark of an assignment.
    Assignment,
    /// The mark of a range.
    Range,
    /// The first of two names of a parameter, where it is none itself.
    OtherLabel,
    /// A label of a payload.
    PayloadLabel,
    /// Any token but a label of a payload.
    BareType,
    /// What a declaration of a file begins with.
    Decl,
    /// What a member of a type begins with.
    Member,
    /// What an item of an enum begins with.
    EnumItem,
    /// What a requirement of a protocol begins with.
    Requirement,
    /// What a statement that ends in an expression begins with.
    OpenStatement,
    /// What any other statement but a `return` begins with.
    ClosedStatement,
    /// What a statement begins with.
    Statement,
    /// What an arm of a `switch` begins with.
    Arm,
    /// What the expression of a `return` begins with.
    Returned,
    /// The first token of a line, after a statement that ends in an expression.
    BelowOpen,
    /// The first token of a line, after any other statement.
    BelowClosed,
    /// What a parameter begins with.
    Parameter,
    /// What a part of a payload begins with.
    Payload,
    /// What a pattern of a `case` begins with.
    Pattern,
    /// What a pattern of a `catch` begins with.
    CatchPattern,
    /// What a part of a pattern between brackets begins with.
    Bind,
}

fn is_modifier(class: Class) -> bool
    ensures { result ≡ spec.is_modifier_class class }
{
    match class {
        Class::Is(TokenKind::Public)
        | Class::Is(TokenKind::Internal)
        | Class::Is(TokenKind::Private)
        | Class::Is(TokenKind::Fileprivate)
        | Class::Is(TokenKind::Static)
        | Class::Final
        | Class::Distributed
        | Class::Nonisolated
        | Class::Mutating => true,
        _ => false,
    }
}

fn is_actor(class: Class) -> bool
    ensures { result ≡ spec.is_actor_class class }
{
    match class {
        Class::Actor => true,
        _ => false,
    }
}

fn is_get(class: Class) -> bool
    ensures { result ≡ spec.is_get_class class }
{
    match class {
        Class::Get | Class::GetBlock => true,
        _ => false,
    }
}

fn is_get_block(class: Class) -> bool
    ensures { result ≡ spec.is_get_block_class class }
{
    match class {
        Class::GetBlock => true,
        _ => false,
    }
}

fn is_else_if(class: Class) -> bool
    ensures { result ≡ spec.is_else_if_class class }
{
    match class {
        Class::ElseIf => true,
        _ => false,
    }
}

fn is_any_else(class: Class) -> bool
    ensures { result ≡ spec.is_else_class class }
{
    class.is(TokenKind::Else) || is_else_if(class)
}

fn goes_on_below(sight: Sight) -> bool
    ensures { result ≡ spec.goes_on_below sight }
{
    sight.is(TokenKind::Dot) || sight.class.is_loose_minus()
}

fn is_assignment(sight: Sight) -> bool
    ensures { result ≡ spec.is_assignment sight }
{
    sight.is(TokenKind::Assign)
        || sight.is(TokenKind::PlusAssign)
        || sight.is(TokenKind::MinusAssign)
        || sight.is(TokenKind::StarAssign)
        || sight.is(TokenKind::SlashAssign)
        || sight.is(TokenKind::PercentAssign)
}

fn is_range(sight: Sight) -> bool
    ensures { result ≡ spec.is_range sight }
{
    sight.is(TokenKind::HalfOpenRange) || sight.is(TokenKind::Ellipsis)
}

fn starts_type(sight: Sight) -> bool
    ensures { result ≡ spec.starts_type sight }
{
    sight.class.is_name()
        || sight.is(TokenKind::LeftBracket)
        || sight.is(TokenKind::Any)
        || sight.is(TokenKind::LeftParen)
}

fn is_payload_label(sight: Sight) -> bool
    ensures { result ≡ spec.is_payload_label sight }
{
    sight.class.is_name() && sight.before_colon
        || sight.class.is_reserved() && (sight.before_colon || !starts_type(sight))
}

fn is_other_label(sight: Sight) -> bool
    ensures { result ≡ spec.is_other_label sight }
{
    sight.is(TokenKind::Underscore) || sight.class.is_reserved()
}

fn starts_decl(sight: Sight) -> bool
    ensures { result ≡ table.starts_item nonterminal.Decls sight }
{
    sight.is(TokenKind::Import)
        || sight.is(TokenKind::Typealias)
        || is_modifier(sight.class)
        || sight.is(TokenKind::Struct)
        || sight.is(TokenKind::Enum)
        || sight.is(TokenKind::Protocol)
        || is_actor(sight.class)
        || sight.is(TokenKind::Func)
}

fn starts_member(sight: Sight) -> bool
    ensures { result ≡ table.starts_item nonterminal.Members sight }
{
    sight.is(TokenKind::Typealias)
        || is_modifier(sight.class)
        || sight.is(TokenKind::Let)
        || sight.is(TokenKind::Var)
        || sight.is(TokenKind::Func)
        || sight.is(TokenKind::Init)
}

fn starts_enum_item(sight: Sight) -> bool
    ensures { result ≡ table.starts_item nonterminal.EnumItems sight }
{
    sight.is(TokenKind::Case) || starts_member(sight)
}

fn starts_requirement(sight: Sight) -> bool
    ensures { result ≡ table.starts_item nonterminal.Requirements sight }
{
    sight.is(TokenKind::Var) || is_modifier(sight.class) || sight.is(TokenKind::Func)
}

fn starts_open(sight: Sight) -> bool
    ensures { result ≡ table.starts_stmt_of nonterminal.Open sight }
{
    sight.is_let_or_var()
        || sight.starts_expr()
        || sight.is(TokenKind::Underscore)
        || sight.is(TokenKind::Throw)
}

fn starts_closed(sight: Sight) -> bool
    ensures { result ≡ table.starts_stmt_of nonterminal.Closed sight }
{
    sight.is(TokenKind::If)
        || sight.is(TokenKind::Guard)
        || sight.is(TokenKind::While)
        || sight.is(TokenKind::For)
        || sight.is(TokenKind::Switch)
        || sight.is(TokenKind::Do)
        || sight.is(TokenKind::Break)
        || sight.is(TokenKind::Continue)
}

fn starts_statement(sight: Sight) -> bool
    ensures { result ≡ table.starts_stmt sight }
{
    starts_open(sight) || starts_closed(sight) || sight.is(TokenKind::Return)
}

fn starts_arm(sight: Sight) -> bool
    ensures { result ≡ table.starts_arm sight }
{
    sight.is(TokenKind::Case) || sight.is(TokenKind::Default)
}

fn is_returned(sight: Sight) -> bool
    ensures { result ≡ is_returned sight }
{
    !sight.is_first && sight.starts_expr()
}

fn is_below_open(sight: Sight) -> bool
    ensures { result ≡ begins_below nonterminal.Open sight }
{
    sight.is_first && !goes_on_below(sight)
}

fn starts_parameter(sight: Sight) -> bool
    ensures { result ≡ table.first_table nonterminal.Param sight }
{
    sight.class.is_name() || is_other_label(sight)
}

fn starts_payload(sight: Sight) -> bool
    ensures { result ≡ table.first_table nonterminal.Payload sight }
{
    is_payload_label(sight) || starts_type(sight)
}

fn starts_pattern(sight: Sight) -> bool
    ensures { result ≡ table.first_table nonterminal.Pattern sight }
{
    sight.is(TokenKind::Underscore)
        || sight.starts_literal()
        || sight.is(TokenKind::Nil)
        || sight.class.is_name()
        || sight.is(TokenKind::Dot)
}

fn starts_catch_pattern(sight: Sight) -> bool
    ensures { result ≡ table.first_table nonterminal.Caught sight }
{
    sight.is(TokenKind::Let) || sight.class.is_name()
}

fn starts_bind(sight: Sight) -> bool
    ensures { result ≡ starts_bind sight }
{
    sight.is(TokenKind::Let) || sight.is(TokenKind::Underscore)
}

fn passes(sight: Sight, test: Opening) -> bool
    ensures { result ≡ stands test sight }
{
    match test {
        Opening::Modifier => is_modifier(sight.class),
        Opening::Actor => is_actor(sight.class),
        Opening::Get => is_get(sight.class),
        Opening::GetBlock => is_get_block(sight.class),
        Opening::Else => sight.is(TokenKind::Else),
        Opening::ElseIf => is_else_if(sight.class),
        Opening::AnyElse => is_any_else(sight.class),
        Opening::NewLine => sight.is_first,
        Opening::Assignment => is_assignment(sight),
        Opening::Range => is_range(sight),
        Opening::OtherLabel => is_other_label(sight),
        Opening::PayloadLabel => is_payload_label(sight),
        Opening::BareType => !is_payload_label(sight),
        Opening::Decl => starts_decl(sight),
        Opening::Member => starts_member(sight),
        Opening::EnumItem => starts_enum_item(sight),
        Opening::Requirement => starts_requirement(sight),
        Opening::OpenStatement => starts_open(sight),
        Opening::ClosedStatement => starts_closed(sight),
        Opening::Statement => starts_statement(sight),
        Opening::Arm => starts_arm(sight),
        Opening::Returned => is_returned(sight),
        Opening::BelowOpen => is_below_open(sight),
        Opening::BelowClosed => sight.is_first,
        Opening::Parameter => starts_parameter(sight),
        Opening::Payload => starts_payload(sight),
        Opening::Pattern => starts_pattern(sight),
        Opening::CatchPattern => starts_catch_pattern(sight),
        Opening::Bind => starts_bind(sight),
    }
}

/// Tells whether the token at this position passes a test of statements and declarations. At the end none does.
pub fn stands(view: &TokenView, at: usize, test: Opening) -> bool
    ensures value { result ≡ at_first (stands test) (drop at view.now) }
    ensures within { result ≡ true → at < length view.now }
{
    match view.sight(at) {
        Some(sight) => passes(sight, test),
        None => false,
    }
}

/// The token at this position, if it passes a test of statements and declarations, and the position after it.
pub fn expect_opening<'a>(
    view: &TokenView<'a>,
    at: usize,
    test: Opening,
) -> Result<(TokenRef<'a>, usize), Stop>
    ensures gives { (left : ℕ) → Gives view.now (met left result) (one (stands test) left (drop at view.now)) }
    ensures moves { Moves at (met 0 result) }
    ensures inside { Inside (length view.now) (met 0 result) }
{
    if stands(view, at, test) {
        Ok(view.take(at))
    } else {
        Err(Stop::Refused { at, over: false })
    }
}
