//! Writes the parts of statements that hold no statements.

ghost use Rattle.std.specs.Prelude.{◌≡◌, [], ◌∷◌, ◌++◌, OnOk};
ghost use Rattle.sw_lex.specs.declared.token.TokenKind.TheVariants as TokenKindValue;
ghost use Rattle.sw_layout.specs.declared.gap.Gap.TheVariants as GapValue;
ghost use Rattle.sw_layout.specs.Words.{plain, words_text};
ghost use Rattle.sw_print.specs.Expressions.{perhaps, name_word, expr_words};
ghost use Rattle.sw_print.specs.Statements.{annotation_words, assign_mark, binding_word, condition_words, conditions_words, initial_words, loop_word, range_mark, range_words};

use crate::expressions::write_expr;
use crate::names::write_name;
use crate::page::Page;
use crate::types::write_type;
use crate::writing::{Written, write_listed};
use sw_base::NoMemory;
use sw_layout::Gap;
use sw_lex::TokenKind;
use sw_tree::{AssignOperator, Binding, Condition, Expr, Name, RangeEnd, RangeOperator, Type};

/// Writes `let` or `var`.
pub fn write_binding(page: &mut Page, binding: Binding, before: Gap) -> Result<(), NoMemory>
    ensures { OnOk result (page.new ≡ page.old ++ words_text (binding_word binding before ∷ [])) }
{
    match binding {
        Binding::Let => page.plain(TokenKind::Let, before),
        Binding::Var => page.plain(TokenKind::Var, before),
    }
}

/// Writes a `:`, and a type after it.
#[tactic(auto, using(crate::proofs::TextLemmas::text_rules))]
pub fn write_annotation(page: &mut Page, declared: &Type) -> Result<(), NoMemory>
    ensures { OnOk result (page.new ≡ page.old ++ words_text (annotation_words declared.now)) }
{
    page.plain(TokenKind::Colon, Gap::Space)?;
    write_type(page, declared, Gap::Space)
}

/// Writes a type after its `:`, where there is one.
pub fn write_declared(page: &mut Page, declared: &Option<Type>) -> Result<(), NoMemory>
    ensures { OnOk result (page.new ≡ page.old ++ words_text (perhaps annotation_words declared.now)) }
{
    match declared {
        None => Ok(()),
        Some(declared) => write_annotation(page, declared),
    }
}

/// Writes a `=`, and a value after it.
#[tactic(auto, using(crate::proofs::TextLemmas::text_rules))]
pub fn write_initial(page: &mut Page, value: &Expr) -> Result<(), NoMemory>
    ensures { OnOk result (page.new ≡ page.old ++ words_text (initial_words value.now)) }
{
    page.plain(TokenKind::Assign, Gap::Space)?;
    write_expr(page, value, Gap::Space)
}

/// Writes a value after its `=`, where there is one.
pub fn write_value(page: &mut Page, value: &Option<Expr>) -> Result<(), NoMemory>
    ensures { OnOk result (page.new ≡ page.old ++ words_text (perhaps initial_words value.now)) }
{
    match value {
        None => Ok(()),
        Some(value) => write_initial(page, value),
    }
}

impl Written for Condition {
    ghost words = { condition_words };

    #[tactic(auto, using(crate::proofs::TextLemmas::text_rules))]
    fn write(&self, page: &mut Page, before: Gap) -> Result<(), NoMemory> {
        match self {
            Condition::Expr(x) => write_expr(page, x, before),
            Condition::Bind(binding, name, value) => {
                write_binding(page, *binding, before)?;
                write_name(page, name, Gap::Space)?;
                write_value(page, value)
            }
        }
    }
}

/// Writes a word, and conditions after it.
#[tactic(auto, using(crate::proofs::TextLemmas::text_rules))]
pub fn write_conditions(
    page: &mut Page,
    kind: TokenKind,
    conditions: &[Condition],
    before: Gap,
) -> Result<(), NoMemory>
    ensures { OnOk result (page.new ≡ page.old ++ words_text (plain kind before ∷ conditions_words conditions.now)) }
{
    page.plain(kind, before)?;
    write_listed(page, conditions)
}

/// Writes the declaration of a local name.
#[tactic(auto, using(crate::proofs::TextLemmas::text_rules))]
pub fn write_local(
    page: &mut Page,
    binding: Binding,
    name: &Name,
    declared: &Option<Type>,
    value: &Expr,
    before: Gap,
) -> Result<(), NoMemory>
    ensures { OnOk result (page.new ≡ page.old
        ++ words_text (binding_word binding before ∷ name_word name.now GapValue.Space ∷ (perhaps annotation_words declared.now ++ initial_words value.now))) }
{
    write_binding(page, binding, before)?;
    write_name(page, name, Gap::Space)?;
    write_declared(page, declared)?;
    write_initial(page, value)
}

/// The mark of an assignment.
fn assign_mark(operator: AssignOperator) -> TokenKind
    ensures { result ≡ assign_mark operator }
{
    match operator {
        AssignOperator::Assign => TokenKind::Assign,
        AssignOperator::Add => TokenKind::PlusAssign,
        AssignOperator::Subtract => TokenKind::MinusAssign,
        AssignOperator::Multiply => TokenKind::StarAssign,
        AssignOperator::Divide => TokenKind::SlashAssign,
        AssignOperator::Remainder => TokenKind::PercentAssign,
    }
}

/// Writes an assignment.
#[tactic(auto, using(crate::proofs::TextLemmas::text_rules))]
pub fn write_assign(
    page: &mut Page,
    to: &Expr,
    operator: AssignOperator,
    value: &Expr,
    before: Gap,
) -> Result<(), NoMemory>
    ensures { OnOk result (page.new ≡ page.old
        ++ words_text (expr_words to.now before ++ (plain (assign_mark operator) GapValue.Space ∷ expr_words value.now GapValue.Space))) }
{
    write_expr(page, to, before)?;
    page.plain(assign_mark(operator), Gap::Space)?;
    write_expr(page, value, Gap::Space)
}

/// Writes the name of a loop, or `_`.
fn write_loop_name(page: &mut Page, name: &Option<Name>) -> Result<(), NoMemory>
    ensures { OnOk result (page.new ≡ page.old ++ words_text (loop_word name.now ∷ [])) }
{
    match name {
        None => page.plain(TokenKind::Underscore, Gap::Space),
        Some(name) => write_name(page, name, Gap::Space),
    }
}

/// The mark of a range.
fn range_mark(operator: RangeOperator) -> TokenKind
    ensures { result ≡ range_mark operator }
{
    match operator {
        RangeOperator::HalfOpen => TokenKind::HalfOpenRange,
        RangeOperator::Closed => TokenKind::Ellipsis,
    }
}

/// Writes the second end of a range after its mark, where there is one.
#[tactic(auto, using(crate::proofs::TextLemmas::text_rules))]
fn write_range_end(page: &mut Page, end: &Option<RangeEnd>) -> Result<(), NoMemory>
    ensures { OnOk result (page.new ≡ page.old ++ words_text (perhaps range_words end.now)) }
{
    match end {
        None => Ok(()),
        Some(end) => {
            page.plain(range_mark(end.operator), Gap::Space)?;
            write_expr(page, &end.value, Gap::Space)
        }
    }
}

/// Writes a `for` up to its block.
#[tactic(auto, using(crate::proofs::TextLemmas::text_rules))]
pub fn write_for(
    page: &mut Page,
    name: &Option<Name>,
    first: &Expr,
    last: &Option<RangeEnd>,
    before: Gap,
) -> Result<(), NoMemory>
    ensures { OnOk result (page.new ≡ page.old
        ++ words_text (plain TokenKindValue.For before ∷ loop_word name.now ∷ plain TokenKindValue.In GapValue.Space ∷ (expr_words first.now GapValue.Space ++ perhaps range_words last.now))) }
{
    page.plain(TokenKind::For, before)?;
    write_loop_name(page, name)?;
    page.plain(TokenKind::In, Gap::Space)?;
    write_expr(page, first, Gap::Space)?;
    write_range_end(page, last)
}

/// Writes a word, and a value after it.
#[tactic(auto, using(crate::proofs::TextLemmas::text_rules))]
pub fn write_with_value(
    page: &mut Page,
    kind: TokenKind,
    value: &Expr,
    before: Gap,
) -> Result<(), NoMemory>
    ensures { OnOk result (page.new ≡ page.old ++ words_text (plain kind before ∷ expr_words value.now GapValue.Space)) }
{
    page.plain(kind, before)?;
    write_expr(page, value, Gap::Space)
}

/// Writes a `return`, perhaps with a value.
#[tactic(auto, using(crate::proofs::TextLemmas::text_rules))]
pub fn write_return(page: &mut Page, value: &Option<Expr>, before: Gap) -> Result<(), NoMemory>
    ensures { OnOk result (page.new ≡ page.old
        ++ words_text (plain TokenKindValue.Return before ∷ perhaps (λ x. expr_words x GapValue.Space) value.now)) }
{
    match value {
        None => page.plain(TokenKind::Return, before),
        Some(value) => write_with_value(page, TokenKind::Return, value, before),
    }
}
