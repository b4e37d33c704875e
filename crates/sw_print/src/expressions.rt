//! Writes expressions and literals.

ghost use Rattle.std.specs.Prelude.{◌≡◌, [], ◌∷◌, ◌++◌, map, OnOk};
ghost use Rattle.std.specs.Fmt.{signed_decimal};
ghost use Rattle.sw_lex.specs.declared.token.TokenKind.TheVariants as TokenKindValue;
ghost use Rattle.sw_layout.specs.declared.gap.Gap.TheVariants as GapValue;
ghost use Rattle.sw_layout.specs.Words.{plain, words_text};
ghost use Rattle.sw_print.specs.Expressions.{word, bool_word, listed, mark_of, signed, try_words, expr_words, literal_words, argument_words};
ghost use Rattle.sw_tree.specs.declared.expr.Literal.TheVariants as LiteralTree;

use crate::names::{write_dot_name, write_label, write_name};
use crate::page::Page;
use sw_base::NoMemory;
use sw_layout::Gap;
use sw_lex::TokenKind;
use sw_tree::{Argument, BinaryOperator, Expr, Literal, PrefixOperator, StringPiece, TryForm};

/// Writes `try` or `try?`.
fn write_try(page: &mut Page, form: TryForm, before: Gap) -> Result<(), NoMemory>
    ensures { OnOk result (page.new ≡ page.old ++ words_text (try_words form before)) }
{
    page.plain(TokenKind::Try, before)?;
    match form {
        TryForm::Plain => Ok(()),
        TryForm::Optional => page.plain(TokenKind::Question, Gap::Joined),
    }
}

/// The mark of an operator.
fn mark_of(operator: BinaryOperator) -> TokenKind
    ensures { result ≡ mark_of operator }
{
    match operator {
        BinaryOperator::Or => TokenKind::Or,
        BinaryOperator::And => TokenKind::And,
        BinaryOperator::Equal => TokenKind::EqualEqual,
        BinaryOperator::NotEqual => TokenKind::NotEqual,
        BinaryOperator::Less => TokenKind::Less,
        BinaryOperator::LessEqual => TokenKind::LessEqual,
        BinaryOperator::Greater => TokenKind::Greater,
        BinaryOperator::GreaterEqual => TokenKind::GreaterEqual,
        BinaryOperator::Coalesce => TokenKind::Coalesce,
        BinaryOperator::Add => TokenKind::Plus,
        BinaryOperator::Subtract => TokenKind::Minus,
        BinaryOperator::Multiply => TokenKind::Star,
        BinaryOperator::Divide => TokenKind::Slash,
        BinaryOperator::Remainder => TokenKind::Percent,
    }
}

/// Writes an expression.
#[cycle(expr)]
#[tactic(auto, using(crate::proofs::ExprWords::expr_rules))]
pub fn write_expr(page: &mut Page, x: &Expr, before: Gap) -> Result<(), NoMemory>
    ensures { OnOk result (page.new ≡ page.old ++ words_text (expr_words x.now before)) }
{
    match x {
        Expr::Try(form, _, operand) => {
            write_try(page, *form, before)?;
            write_expr(page, operand.get(), Gap::Space)
        }
        Expr::Await(_, operand) => write_after_word(page, TokenKind::Await, before, operand.get()),
        Expr::Ternary(condition, both) => {
            write_expr(page, condition.get(), before)?;
            write_branches(page, both.get())
        }
        Expr::Binary(operator, _, both) => write_binary(page, *operator, both.get(), before),
        Expr::Prefix(operator, _, operand) => write_signed(page, *operator, operand.get(), before),
        Expr::Member(base, name) => {
            write_expr(page, base.get(), before)?;
            write_dot_name(page, name.get(), Gap::Joined)
        }
        Expr::Call(callee, list) => {
            write_expr(page, callee.get(), before)?;
            page.plain(TokenKind::LeftParen, Gap::Joined)?;
            write_arguments(page, list.get().1.as_slice())?;
            page.plain(TokenKind::RightParen, Gap::Space)
        }
        Expr::Index(base, index) => {
            write_expr(page, base.get(), before)?;
            write_after_word(page, TokenKind::LeftBracket, Gap::Joined, &index.get().1)?;
            page.plain(TokenKind::RightBracket, Gap::Space)
        }
        Expr::Force(operand, _) => {
            write_expr(page, operand.get(), before)?;
            page.plain(TokenKind::Bang, Gap::Joined)
        }
        Expr::Literal(_, value) => write_literal(page, value.get(), before),
        Expr::Nil(_) => page.plain(TokenKind::Nil, before),
        Expr::Name(name) | Expr::Wait(name) => write_name(page, name.get(), before),
        Expr::SelfValue(_) => page.plain(TokenKind::Self_, before),
        Expr::Implicit(_, name) => write_dot_name(page, name.get(), before),
        Expr::Paren(_, inner) => write_paren(page, inner.get(), before),
        Expr::Array(_, elements) => write_array(page, elements.get().as_slice(), before),
        Expr::Issue(_, call) => write_expr(page, call.get(), before),
    }
}

/// Writes a word, and an expression after it.
#[cycle(expr)]
#[tactic(auto, using(crate::proofs::TextLemmas::text_rules))]
fn write_after_word(page: &mut Page, kind: TokenKind, before: Gap, x: &Expr) -> Result<(), NoMemory>
    ensures { OnOk result (page.new ≡ page.old ++ words_text (plain kind before ∷ expr_words x.now GapValue.Space)) }
{
    page.plain(kind, before)?;
    write_expr(page, x, Gap::Space)
}

/// Writes the branches of a ternary, each after its mark.
#[cycle(expr)]
#[tactic(auto, using(crate::proofs::TextLemmas::text_rules))]
fn write_branches(page: &mut Page, both: &(Expr, Expr)) -> Result<(), NoMemory>
    ensures { OnOk result (page.new ≡ page.old
        ++ words_text (plain TokenKindValue.Question GapValue.Space ∷ (expr_words both.now.0 GapValue.Space ++ (plain TokenKindValue.Colon GapValue.Space ∷ expr_words both.now.1 GapValue.Space)))) }
{
    write_after_word(page, TokenKind::Question, Gap::Space, &both.0)?;
    write_after_word(page, TokenKind::Colon, Gap::Space, &both.1)
}

/// Writes an operator between its operands.
#[cycle(expr)]
#[tactic(auto, using(crate::proofs::TextLemmas::text_rules))]
fn write_binary(
    page: &mut Page,
    operator: BinaryOperator,
    both: &(Expr, Expr),
    before: Gap,
) -> Result<(), NoMemory>
    ensures { OnOk result (page.new ≡ page.old ++ words_text (expr_words both.now.0 before ++ (plain (mark_of operator) GapValue.Space ∷ expr_words both.now.1 GapValue.Space))) }
{
    let (left, right) = both;
    write_expr(page, left, before)?;
    write_after_word(page, mark_of(operator), Gap::Space, right)
}

/// Writes a sign and its operand.
#[cycle(expr)]
#[tactic(auto, using(crate::proofs::TextLemmas::text_rules))]
fn write_signed(
    page: &mut Page,
    operator: PrefixOperator,
    x: &Expr,
    before: Gap,
) -> Result<(), NoMemory>
    ensures { OnOk result (page.new ≡ page.old ++ words_text (signed operator (expr_words x.now) before)) }
{
    match operator {
        PrefixOperator::Minus => {
            page.plain(TokenKind::Minus, before)?;
            write_expr(page, x, Gap::Joined)
        }
        PrefixOperator::Not => write_after_word(page, TokenKind::Bang, before, x),
    }
}

/// Writes an expression in brackets.
#[cycle(expr)]
#[tactic(auto, using(crate::proofs::TextLemmas::text_rules))]
fn write_paren(page: &mut Page, x: &Expr, before: Gap) -> Result<(), NoMemory>
    ensures { OnOk result (page.new ≡ page.old
        ++ words_text (plain TokenKindValue.LeftParen before ∷ (expr_words x.now GapValue.Space ++ plain TokenKindValue.RightParen GapValue.Space ∷ []))) }
{
    write_after_word(page, TokenKind::LeftParen, before, x)?;
    page.plain(TokenKind::RightParen, Gap::Space)
}

/// Writes an array.
#[cycle(expr)]
#[tactic(auto, using(crate::proofs::TextLemmas::text_rules))]
fn write_array(page: &mut Page, elements: &[Expr], before: Gap) -> Result<(), NoMemory>
    ensures { OnOk result (page.new ≡ page.old
        ++ words_text (plain TokenKindValue.LeftBracket before ∷ (listed (map expr_words elements.now) ++ plain TokenKindValue.RightBracket GapValue.Space ∷ []))) }
{
    page.plain(TokenKind::LeftBracket, before)?;
    write_elements(page, elements)?;
    page.plain(TokenKind::RightBracket, Gap::Space)
}

/// Writes the elements of an array.
#[cycle(expr)]
fn write_elements(page: &mut Page, elements: &[Expr]) -> Result<(), NoMemory>
    ensures { OnOk result (page.new ≡ page.old ++ words_text (listed (map expr_words elements.now))) }
{
    match elements {
        [] => Ok(()),
        [first, others @ ..] => {
            write_expr(page, first, Gap::Space)?;
            for element in others {
                page.plain(TokenKind::Comma, Gap::Space)?;
                write_expr(page, element, Gap::Space)?;
            }
            Ok(())
        }
    }
}

/// Writes the arguments of a call.
#[cycle(expr)]
fn write_arguments(page: &mut Page, arguments: &[Argument]) -> Result<(), NoMemory>
    ensures { OnOk result (page.new ≡ page.old ++ words_text (listed (map argument_words arguments.now))) }
{
    match arguments {
        [] => Ok(()),
        [first, others @ ..] => {
            write_argument(page, first, Gap::Space)?;
            for argument in others {
                page.plain(TokenKind::Comma, Gap::Space)?;
                write_argument(page, argument, Gap::Space)?;
            }
            Ok(())
        }
    }
}

/// Writes an argument, after its label where it has one.
#[cycle(expr)]
#[tactic(auto, using(crate::proofs::TextLemmas::text_rules))]
fn write_argument(page: &mut Page, argument: &Argument, before: Gap) -> Result<(), NoMemory>
    ensures { OnOk result (page.new ≡ page.old ++ words_text (argument_words argument.now before)) }
{
    match &argument.label {
        None => write_expr(page, &argument.value, before),
        Some(label) => {
            write_label(page, label, before)?;
            write_after_word(page, TokenKind::Colon, Gap::Space, &argument.value)
        }
    }
}

/// Writes an integer: a sign, where it is negative, and its decimal digits.
fn write_integer(page: &mut Page, n: i64, before: Gap) -> Result<(), NoMemory>
    ensures { OnOk result (page.new ≡ page.old ++ words_text (word TokenKindValue.Integer (signed_decimal n) before ∷ [])) }
{
    let digits = n.to_string(page.allocator())?;
    page.word(TokenKind::Integer, digits.as_bytes(), before)
}

/// Writes `true` or `false`.
fn write_bool(page: &mut Page, value: bool, before: Gap) -> Result<(), NoMemory>
    ensures { OnOk result (page.new ≡ page.old ++ words_text (bool_word value before ∷ [])) }
{
    if value {
        page.plain(TokenKind::True, before)
    } else {
        page.plain(TokenKind::False, before)
    }
}

/// Writes a literal.
#[cycle(expr)]
#[tactic(auto, using(crate::proofs::ExprWords::literal_rules))]
pub fn write_literal(page: &mut Page, literal: &Literal, before: Gap) -> Result<(), NoMemory>
    ensures { OnOk result (page.new ≡ page.old ++ words_text (literal_words literal.now before)) }
{
    match literal {
        Literal::Integer(n) => write_integer(page, *n, before),
        Literal::Bool(value) => write_bool(page, *value, before),
        Literal::String(text, pieces) => {
            write_string(page, text.get().as_bytes(), pieces.get().as_slice(), before)
        }
    }
}

/// Writes a string: the text up to its first expression, and the pieces after.
#[cycle(expr)]
#[tactic(auto, using(crate::proofs::TextLemmas::text_rules))]
fn write_string(
    page: &mut Page,
    text: &[u8],
    pieces: &[StringPiece],
    before: Gap,
) -> Result<(), NoMemory>
    ensures { OnOk result (page.new ≡ page.old ++ words_text (literal_words (LiteralTree.String text.now pieces.now) before)) }
{
    match pieces {
        [] => page.word(TokenKind::StringWhole, text, before),
        [pieces @ .., last] => {
            page.word(TokenKind::StringStart, text, before)?;
            for piece in pieces {
                write_expr(page, &piece.value, Gap::Joined)?;
                page.word(TokenKind::StringMiddle, piece.text.as_bytes(), Gap::Joined)?;
            }
            write_expr(page, &last.value, Gap::Joined)?;
            page.word(TokenKind::StringLast, last.text.as_bytes(), Gap::Joined)
        }
    }
}
