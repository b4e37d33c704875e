//! What an expression of each form is by itself, of what its parts are.
#![tactic(auto, using(crate::proofs::Findings::keep_append))]

ghost use Rattle.std.specs.Prelude.{◌≡◌, ◌++◌, IfOk, OnOk};
ghost use Rattle.std.specs.Option.{option_and_then};
ghost use Rattle.sw_findings.specs.Found.{keep_all};
ghost use Rattle.sw_typing.specs.Conversions.{e1, fitted};
ghost use Rattle.sw_typing.specs.Types.{wrapped};
ghost use Rattle.sw_check_expr.specs.Forms.{binary_form, force_broken, index_broken, indexed_type, is_coalesce, is_no_array, is_not_optional, of_await, of_branches, of_force, of_index, of_issue, of_operands, of_paren, of_sign, of_try, operands_broken, right_need, sign_broken, taken_from, ternary_type, try_type};

use crate::site::{Site, conclude};
use sqlite_items::Boxed;
use std::alloc::Global;
use sw_base::{Duplicate, NoMemory, Span};
use sw_findings::Findings;
use sw_rules::Rule;
use sw_tree::{BinaryOperator, PrefixOperator, TryForm};
use sw_typed::{Form, Typed};
use sw_typing::{
    Need, coalescing_of, element, is_array, is_incomparable, is_meaningless, is_meaningless_sign,
    is_optional, less_optional, operation_type, optional, signed_type, wrapped,
};
use sw_value::Ty;

// ---- round one expression

#[tactic(auto, unfolding(crate::specs::Forms::try_type))]
fn try_type(alloc: Global, form: TryForm, ty: Option<Ty>) -> Result<Option<Ty>, NoMemory>
    ensures { IfOk result (λ made. made ≡ try_type form ty) }
{
    match form {
        TryForm::Plain => Ok(ty),
        TryForm::Optional => match ty {
            None => Ok(None),
            Some(t) => Ok(Some(optional(alloc, &t)?)),
        },
    }
}

/// `try` or `try?`. The only error is want of memory.
pub(crate) fn of_try(alloc: Global, form: TryForm, at: Span, e: Typed) -> Result<Typed, NoMemory>
    ensures { IfOk result (λ made. made ≡ of_try form at e) }
{
    let ty = try_type(alloc, form, e.ty.copy()?)?;
    let part = Boxed::new(alloc, e)?;
    Ok(Typed {
        ty,
        first: at,
        form: Form::Try(form, at, part),
    })
}

/// `await`. The only error is want of memory.
pub(crate) fn of_await(alloc: Global, at: Span, e: Typed) -> Result<Typed, NoMemory>
    ensures { IfOk result (λ made. made ≡ of_await at e) }
{
    let ty = e.ty.copy()?;
    let part = Boxed::new(alloc, e)?;
    Ok(Typed {
        ty,
        first: at,
        form: Form::Await(at, part),
    })
}

/// Brackets. The only error is want of memory.
pub(crate) fn of_paren(alloc: Global, at: Span, e: Typed) -> Result<Typed, NoMemory>
    ensures { IfOk result (λ made. made ≡ of_paren at e) }
{
    let ty = e.ty.copy()?;
    let part = Boxed::new(alloc, e)?;
    Ok(Typed {
        ty,
        first: at,
        form: Form::Paren(part),
    })
}

/// A call that is issued. The only error is want of memory.
pub(crate) fn of_issue(alloc: Global, at: Span, e: Typed) -> Result<Typed, NoMemory>
    ensures { IfOk result (λ made. made ≡ of_issue at e) }
{
    let ty = e.ty.copy()?;
    let part = Boxed::new(alloc, e)?;
    Ok(Typed {
        ty,
        first: at,
        form: Form::Issue(at, part),
    })
}

fn of_sign(alloc: Global, operator: PrefixOperator, at: Span, e: Typed) -> Result<Typed, NoMemory>
    ensures { IfOk result (λ made. made ≡ of_sign operator at e) }
{
    let ty = signed_type(operator, &e.ty)?;
    let part = Boxed::new(alloc, e)?;
    Ok(Typed {
        ty,
        first: at,
        form: Form::Prefix(operator, at, part),
    })
}

/// A sign and its operand; E4 is reported at the sign. The only error is want of memory.
pub(crate) fn sign(
    alloc: Global,
    found: &mut Findings,
    site: &Site<'_, '_>,
    operator: PrefixOperator,
    at: Span,
    e: Typed,
) -> Result<Typed, NoMemory>
    ensures typed { IfOk result (λ made. made ≡ fitted site.now.scope.now.known.now site.now.need.now (of_sign operator at e)) }
    ensures found { OnOk result (found.new ≡ keep_all found.old
        (sign_broken operator at e ++ e1 site.now.scope.now.known.now site.now.need.now site.now.at (of_sign operator at e))) }
{
    found.report(is_meaningless_sign(operator, &e.ty), Rule::E4, at);
    let made = of_sign(alloc, operator, at, e)?;
    conclude(alloc, found, site, made)
}

fn forced_type(alloc: Global, ty: &Option<Ty>) -> Result<Option<Ty>, NoMemory>
    ensures { IfOk result (λ made. made ≡ option_and_then (λ t. wrapped t) ty.now) }
{
    match ty {
        None => Ok(None),
        Some(t) => wrapped(alloc, t),
    }
}

fn of_force(alloc: Global, at: Span, e: Typed) -> Result<Typed, NoMemory>
    ensures { IfOk result (λ made. made ≡ of_force at e) }
{
    let ty = forced_type(alloc, &e.ty)?;
    let first = e.first;
    let part = Boxed::new(alloc, e)?;
    Ok(Typed {
        ty,
        first,
        form: Form::Force(at, part),
    })
}

#[tactic(auto, unfolding(crate::specs::Forms::is_not_optional))]
fn is_not_optional(ty: &Option<Ty>) -> bool
    ensures { result ≡ is_not_optional ty.now }
{
    match ty {
        None => false,
        Some(t) => !is_optional(t),
    }
}

/// `!` after a value; E11 is reported at it. The only error is want of memory.
pub(crate) fn force(
    alloc: Global,
    found: &mut Findings,
    site: &Site<'_, '_>,
    at: Span,
    e: Typed,
) -> Result<Typed, NoMemory>
    ensures typed { IfOk result (λ made. made ≡ fitted site.now.scope.now.known.now site.now.need.now (of_force at e)) }
    ensures found { OnOk result (found.new ≡ keep_all found.old
        (force_broken at e ++ e1 site.now.scope.now.known.now site.now.need.now site.now.at (of_force at e))) }
{
    found.report(is_not_optional(&e.ty), Rule::E11, at);
    let made = of_force(alloc, at, e)?;
    conclude(alloc, found, site, made)
}

// ---- of two and three

#[tactic(auto, unfolding(crate::specs::Forms::is_coalesce))]
fn is_coalesce(operator: BinaryOperator) -> bool
    ensures { result ≡ is_coalesce operator }
{
    match operator {
        BinaryOperator::Coalesce => true,
        _ => false,
    }
}

#[tactic(auto, unfolding(crate::specs::Forms::taken_from))]
fn taken_from(alloc: Global, unwraps: bool, left: &Option<Ty>) -> Result<Need, NoMemory>
    ensures { IfOk result (λ need. need ≡ taken_from unwraps left.now) }
{
    match left {
        None => Ok(Need::Lost),
        Some(t) => {
            if unwraps {
                Ok(Need::Like(less_optional(alloc, t)?))
            } else {
                Ok(Need::Like(t.copy()?))
            }
        }
    }
}

/// What the right operand needs, which is told after the left one. The only error is want of memory.
#[tactic(auto, unfolding(crate::specs::Forms::right_need))]
pub(crate) fn right_need(
    alloc: Global,
    operator: BinaryOperator,
    is_nil: bool,
    asks: bool,
    left: &Option<Ty>,
) -> Result<Need, NoMemory>
    ensures { IfOk result (λ need. need ≡ right_need operator is_nil asks left.now) }
{
    if asks {
        taken_from(alloc, is_coalesce(operator) && !is_nil, left)
    } else {
        Ok(Need::Free)
    }
}

#[tactic(auto, unfolding(crate::specs::Forms::binary_form))]
fn binary_form(
    alloc: Global,
    operator: BinaryOperator,
    at: Span,
    a: Typed,
    b: Typed,
) -> Result<Form, NoMemory>
    ensures { IfOk result (λ made. made ≡ binary_form operator at a b) }
{
    let coalescing = coalescing_of(&a.ty, &b.ty);
    let operands = Boxed::new(alloc, (a, b))?;
    match operator {
        BinaryOperator::Coalesce => Ok(Form::Coalesce(coalescing, at, operands)),
        _ => Ok(Form::Binary(operator, at, operands)),
    }
}

fn of_operands(
    alloc: Global,
    site: &Site<'_, '_>,
    operator: BinaryOperator,
    at: Span,
    a: Typed,
    b: Typed,
) -> Result<Typed, NoMemory>
    ensures { IfOk result (λ made. made ≡ of_operands site.now.scope.now operator at a b) }
{
    let scope = site.scope;
    let ty = operation_type(alloc, scope.known, operator, &a.ty, &b.ty)?;
    let first = a.first;
    let form = binary_form(alloc, operator, at, a, b)?;
    Ok(Typed { ty, first, form })
}

/// An operator and its operands; E4 and E9 are reported at it. The only error is want of memory.
pub(crate) fn operands(
    alloc: Global,
    found: &mut Findings,
    site: &Site<'_, '_>,
    operator: BinaryOperator,
    at: Span,
    a: Typed,
    b: Typed,
) -> Result<Typed, NoMemory>
    ensures typed { IfOk result (λ made. made ≡ fitted site.now.scope.now.known.now site.now.need.now (of_operands site.now.scope.now operator at a b)) }
    ensures found { OnOk result (found.new ≡ keep_all found.old
        (operands_broken site.now.scope.now operator at a b
        ++ e1 site.now.scope.now.known.now site.now.need.now site.now.at (of_operands site.now.scope.now operator at a b))) }
{
    let scope = site.scope;
    found.report(is_meaningless(operator, &a.ty, &b.ty), Rule::E4, at);
    let is_broken = is_incomparable(scope.known, operator, &a.ty, &b.ty);
    found.report(is_broken, Rule::E9, at);
    let made = of_operands(alloc, site, operator, at, a, b)?;
    conclude(alloc, found, site, made)
}

#[tactic(auto, unfolding(crate::specs::Forms::ternary_type))]
fn ternary_type(
    condition: &Option<Ty>,
    a: &Option<Ty>,
    b: &Option<Ty>,
) -> Result<Option<Ty>, NoMemory>
    ensures { IfOk result (λ made. made ≡ ternary_type condition.now a.now b.now) }
{
    match b {
        None => Ok(None),
        Some(_) => match condition {
            None => Ok(None),
            Some(_) => a.copy(),
        },
    }
}

/// A condition and what is given by it. The only error is want of memory.
pub(crate) fn of_branches(
    alloc: Global,
    condition: Typed,
    a: Typed,
    b: Typed,
) -> Result<Typed, NoMemory>
    ensures { IfOk result (λ made. made ≡ of_branches condition a b) }
{
    let ty = ternary_type(&condition.ty, &a.ty, &b.ty)?;
    let first = condition.first;
    let condition = Boxed::new(alloc, condition)?;
    let branches = Boxed::new(alloc, (a, b))?;
    Ok(Typed {
        ty,
        first,
        form: Form::Ternary(condition, branches),
    })
}

#[tactic(auto, unfolding(crate::specs::Forms::indexed_type))]
fn indexed_type(alloc: Global, a: &Option<Ty>, i: &Option<Ty>) -> Result<Option<Ty>, NoMemory>
    ensures { IfOk result (λ made. made ≡ indexed_type a.now i.now) }
{
    match i {
        None => Ok(None),
        Some(_) => match a {
            None => Ok(None),
            Some(t) => element(alloc, t),
        },
    }
}

fn of_index(alloc: Global, at: Span, a: Typed, i: Typed) -> Result<Typed, NoMemory>
    ensures { IfOk result (λ made. made ≡ of_index at a i) }
{
    let ty = indexed_type(alloc, &a.ty, &i.ty)?;
    let first = a.first;
    let parts = Boxed::new(alloc, (a, i))?;
    Ok(Typed {
        ty,
        first,
        form: Form::Index(at, parts),
    })
}

#[tactic(auto, unfolding(crate::specs::Forms::is_no_array))]
fn is_no_array(ty: &Option<Ty>) -> bool
    ensures { result ≡ is_no_array ty.now }
{
    match ty {
        None => false,
        Some(t) => !is_array(t),
    }
}

/// An element of an array; E5 is reported at `[`. The only error is want of memory.
pub(crate) fn index(
    alloc: Global,
    found: &mut Findings,
    site: &Site<'_, '_>,
    at: Span,
    a: Typed,
    i: Typed,
) -> Result<Typed, NoMemory>
    ensures typed { IfOk result (λ made. made ≡ fitted site.now.scope.now.known.now site.now.need.now (of_index at a i)) }
    ensures found { OnOk result (found.new ≡ keep_all found.old
        (index_broken at a ++ e1 site.now.scope.now.known.now site.now.need.now site.now.at (of_index at a i))) }
{
    found.report(is_no_array(&a.ty), Rule::E5, at);
    let made = of_index(alloc, at, a, i)?;
    conclude(alloc, found, site, made)
}
