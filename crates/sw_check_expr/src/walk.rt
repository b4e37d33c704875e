//! The walk over an expression.
#![tactic(auto, unfolding(crate::specs::Typing::check, crate::specs::Typing::check_constant, crate::specs::Typing::type_or_value), using(crate::proofs::Findings::keep_append, crate::proofs::Findings::keep_none))]

ghost use Rattle.std.specs.Prelude.{◌≡◌, ◌∷◌, IfErr, IfOk, OnOk, drop, map};
ghost use Rattle.std.specs.Option.{option_copied};
ghost use Rattle.sw_rules.specs.Pass.{IsCause, RefusesNone};
ghost use Rattle.sw_findings.specs.Found.{Has, keep_all};
ghost use Rattle.sw_declared.specs.Declarations.{argument_labels};
ghost use Rattle.sw_typed.specs.Syntax as x;
ghost use Rattle.sw_typed.specs.SyntaxOf.{arg_of, args_of, constant_of, expr_of, exprs_of, piece_of, pieces_of};
ghost use Rattle.sw_typing.specs.declared.need.Need.TheVariants.{Free};
ghost use Rattle.sw_check_expr.specs.Syntax.{first};
ghost use Rattle.sw_check_expr.specs.Typing.{check, check_all, check_args, check_constant, check_pieces, checked, need_of, told_arguments, told_branches, told_callee, told_index, told_standing};

use crate::calls::{call, is_unprintable, need_at, needs_of};
use crate::forms::{
    force, index, of_await, of_branches, of_issue, of_paren, of_try, operands, right_need, sign,
};
use crate::lists::{elements, string};
use crate::simple::{empty_array, implicit, integer, name, nil, own, truth, type_before, waited};
use crate::site::{Site, conclude, need_of};
use crate::syntax::{asks, first, is_nil};
use sqlite_items::Items;
use std::alloc::Global;
use sw_base::{Duplicate, NoMemory, Span};
use sw_findings::{Findings, finds_first};
use sw_resolve::{Called, Scope, Standing, called_member, called_name, called_value, member};
use sw_rules::{FrontError, Rule};
use sw_tree::{Argument, BinaryOperator, Expr, Literal, StringPiece, TryForm};
use sw_typed::{Typed, TypedPiece};
use sw_typing::{
    Need, bare, element_wanted, first_branch, first_element, index_need, like, other_element,
    second_branch, within_try,
};
use sw_value::{Base, Ty};

/// What an expression at a place means, with its type; each rule that is broken in it is reported. The only error is want
/// of memory.
#[cycle(expr)]
fn expr(
    alloc: Global,
    found: &mut Findings,
    site: &Site<'_, '_>,
    e: &Expr,
) -> Result<Typed, NoMemory>
    ensures typed { IfOk result (λ made. made ≡ (check (expr_of e.now) site.now.scope.now site.now.need.now site.now.at).typed) }
    ensures found { OnOk result (found.new ≡ keep_all found.old (check (expr_of e.now) site.now.scope.now site.now.need.now site.now.at).faults) }
{
    match e {
        Expr::Try(form, at, e) => tried(alloc, found, site, e.get(), *form, *at),
        Expr::Await(at, e) => of_await(alloc, *at, expr(alloc, found, site, e.get())?),
        Expr::Paren(at, e) => of_paren(alloc, *at, expr(alloc, found, site, e.get())?),
        Expr::Issue(at, e) => of_issue(alloc, *at, expr(alloc, found, site, e.get())?),
        Expr::Ternary(condition, branches) => {
            let need = Need::Needed(bare(alloc, Base::Bool));
            let condition = placed(alloc, found, site.scope, &need, condition.get())?;
            branched(alloc, found, site, branches.get(), condition)
        }
        Expr::Binary(operator, at, parts) => {
            operation(alloc, found, site, parts.get(), *operator, *at)
        }
        Expr::Prefix(operator, at, e) => {
            let e = placed(alloc, found, site.scope, &Need::Free, e.get())?;
            sign(alloc, found, site, *operator, *at, e)
        }
        Expr::Member(base, name) => {
            let standing = standing_of(alloc, found, site.scope, base.get())?;
            let made = member(alloc, found, site.scope, standing, name.get())?;
            conclude(alloc, found, site, made)
        }
        Expr::Call(callee, list) => {
            let called = called(alloc, found, site, callee.get(), list.get())?;
            call_of(alloc, found, site, list.get(), called)
        }
        Expr::Index(base, index) => {
            let base = placed(alloc, found, site.scope, &Need::Free, base.get())?;
            at_index(alloc, found, site, index.get(), base)
        }
        Expr::Force(e, at) => {
            let e = placed(alloc, found, site.scope, &Need::Free, e.get())?;
            force(alloc, found, site, *at, e)
        }
        Expr::Literal(at, value) => constant(alloc, found, site, value.get(), *at),
        Expr::Nil(at) => nil(alloc, found, site, *at),
        Expr::Name(named) => name(alloc, found, site, named.get()),
        Expr::SelfValue(at) => own(alloc, found, site, *at),
        Expr::Implicit(dot, name) => {
            let standing = implicit(alloc, found, site.need, *dot)?;
            let made = member(alloc, found, site.scope, standing, name.get())?;
            conclude(alloc, found, site, made)
        }
        Expr::Array(at, es) => array_of(alloc, found, site, es.get(), *at),
        Expr::Wait(name) => waited(alloc, found, site, name.get()),
    }
}

/// The same of an expression that begins its place.
#[cycle(expr)]
fn placed(
    alloc: Global,
    found: &mut Findings,
    scope: &Scope<'_>,
    need: &Need,
    e: &Expr,
) -> Result<Typed, NoMemory>
    ensures typed { IfOk result (λ made. made ≡ (check (expr_of e.now) scope.now need.now (first (expr_of e.now))).typed) }
    ensures found { OnOk result (found.new ≡ keep_all found.old (check (expr_of e.now) scope.now need.now (first (expr_of e.now))).faults) }
{
    let site = Site {
        scope,
        need,
        at: first(e),
    };
    expr(alloc, found, &site, e)
}

/// `try` or `try?`, within which no type is needed.
#[cycle(expr)]
fn tried(
    alloc: Global,
    found: &mut Findings,
    site: &Site<'_, '_>,
    e: &Expr,
    form: TryForm,
    at: Span,
) -> Result<Typed, NoMemory>
    ensures typed { IfOk result (λ made. made ≡ (check (x.Try form at (expr_of e.now)) site.now.scope.now site.now.need.now site.now.at).typed) }
    ensures found { OnOk result (found.new ≡ keep_all found.old (check (x.Try form at (expr_of e.now)) site.now.scope.now site.now.need.now site.now.at).faults) }
{
    match form {
        TryForm::Plain => of_try(alloc, TryForm::Plain, at, expr(alloc, found, site, e)?),
        TryForm::Optional => {
            let need = within_try(site.need);
            let e = placed(alloc, found, site.scope, &need, e)?;
            let made = of_try(alloc, TryForm::Optional, at, e)?;
            conclude(alloc, found, site, made)
        }
    }
}

/// The branches of a ternary behind its condition.
#[cycle(expr)]
fn branched(
    alloc: Global,
    found: &mut Findings,
    site: &Site<'_, '_>,
    branches: &(Expr, Expr),
    condition: Typed,
) -> Result<Typed, NoMemory>
    ensures typed { IfOk result (λ made. made
        ≡ (told_branches site.now.scope.now site.now.need.now condition (expr_of branches.now.0) (expr_of branches.now.1)).typed) }
    ensures found { OnOk result (found.new
        ≡ keep_all found.old (told_branches site.now.scope.now site.now.need.now condition (expr_of branches.now.0) (expr_of branches.now.1)).faults) }
{
    let need = first_branch(site.need)?;
    let a = placed(alloc, found, site.scope, &need, &branches.0)?;
    let need = second_branch(site.need, &a.ty)?;
    let b = placed(alloc, found, site.scope, &need, &branches.1)?;
    of_branches(alloc, condition, a, b)
}

/// An operation. The operand that takes the other's type is told after it.
#[cycle(expr)]
fn operation(
    alloc: Global,
    found: &mut Findings,
    site: &Site<'_, '_>,
    parts: &(Expr, Expr),
    operator: BinaryOperator,
    at: Span,
) -> Result<Typed, NoMemory>
    ensures typed { IfOk result (λ made. made
        ≡ (check (x.Binary operator at (expr_of parts.now.0) (expr_of parts.now.1)) site.now.scope.now site.now.need.now site.now.at).typed) }
    ensures found { OnOk result (found.new
        ≡ keep_all found.old (check (x.Binary operator at (expr_of parts.now.0) (expr_of parts.now.1)) site.now.scope.now site.now.need.now site.now.at).faults) }
{
    let right_asks = asks(&parts.1);
    if asks(&parts.0) && !right_asks {
        let b = placed(alloc, found, site.scope, &Need::Free, &parts.1)?;
        let need = like(&b.ty)?;
        let a = placed(alloc, found, site.scope, &need, &parts.0)?;
        operands(alloc, found, site, operator, at, a, b)
    } else {
        let a = placed(alloc, found, site.scope, &Need::Free, &parts.0)?;
        let need = right_need(alloc, operator, is_nil(&parts.1), right_asks, &a.ty)?;
        let b = placed(alloc, found, site.scope, &need, &parts.1)?;
        operands(alloc, found, site, operator, at, a, b)
    }
}

/// What stands before a `.`: a type, by its name, or a value.
#[cycle(expr)]
fn standing_of(
    alloc: Global,
    found: &mut Findings,
    scope: &Scope<'_>,
    e: &Expr,
) -> Result<Standing, NoMemory>
    ensures standing { IfOk result (λ made. made
        ≡ (told_standing scope.now (expr_of e.now) (check (expr_of e.now) scope.now Free (first (expr_of e.now)))).standing) }
    ensures found { OnOk result (found.new
        ≡ keep_all found.old (told_standing scope.now (expr_of e.now) (check (expr_of e.now) scope.now Free (first (expr_of e.now)))).faults) }
{
    match type_before(scope, e)? {
        Some(standing) => Ok(standing),
        None => Ok(Standing::Value(placed(alloc, found, scope, &Need::Free, e)?)),
    }
}

/// What a call calls.
#[cycle(expr)]
fn called(
    alloc: Global,
    found: &mut Findings,
    site: &Site<'_, '_>,
    callee: &Expr,
    list: &(Span, Items<Argument>),
) -> Result<Called, NoMemory>
    ensures made { IfOk result (λ made. made
        ≡ (told_callee (expr_of callee.now) site.now.scope.now site.now.need.now (argument_labels list.now.1) list.now.0).called) }
    ensures found { OnOk result (found.new
        ≡ keep_all found.old (told_callee (expr_of callee.now) site.now.scope.now site.now.need.now (argument_labels list.now.1) list.now.0).faults) }
{
    let paren = list.0;
    let arguments = list.1.as_slice();
    match callee {
        Expr::Name(name) => called_name(alloc, found, site.scope, name.get(), arguments, paren),
        Expr::Implicit(dot, name) => {
            let standing = implicit(alloc, found, site.need, *dot)?;
            called_member(
                alloc,
                found,
                site.scope,
                standing,
                name.get(),
                arguments,
                paren,
            )
        }
        Expr::Member(base, name) => {
            let standing = standing_of(alloc, found, site.scope, base.get())?;
            called_member(
                alloc,
                found,
                site.scope,
                standing,
                name.get(),
                arguments,
                paren,
            )
        }
        _ => {
            let value = placed(alloc, found, site.scope, &Need::Free, callee)?;
            called_value(alloc, found, value, paren)
        }
    }
}

/// A call of what is called, with these arguments.
#[cycle(expr)]
fn call_of(
    alloc: Global,
    found: &mut Findings,
    site: &Site<'_, '_>,
    list: &(Span, Items<Argument>),
    called: Called,
) -> Result<Typed, NoMemory>
    ensures typed { IfOk result (λ made. made
        ≡ (told_arguments site.now.scope.now site.now.need.now site.now.at called (args_of (map arg_of list.now.1))).typed) }
    ensures found { OnOk result (found.new
        ≡ keep_all found.old (told_arguments site.now.scope.now site.now.need.now site.now.at called (args_of (map arg_of list.now.1))).faults) }
{
    let es = arguments(alloc, found, site.scope, list, needs_of(&called))?;
    call(alloc, found, site, called, es)
}

/// Arguments, each with what it needs, or, behind those that are listed, with a need that is lost.
#[cycle(expr)]
fn arguments(
    alloc: Global,
    found: &mut Findings,
    scope: &Scope<'_>,
    list: &(Span, Items<Argument>),
    needs: &[Need],
) -> Result<Items<Typed>, NoMemory>
    ensures all { IfOk result (λ made. made ≡ (check_args (args_of (map arg_of list.now.1)) scope.now needs.now).all) }
    ensures found { OnOk result (found.new ≡ keep_all found.old (check_args (args_of (map arg_of list.now.1)) scope.now needs.now).faults) }
{
    let mut made = Items::new(alloc);
    for (position, argument) in list.1.as_slice().iter().enumerate() {
        let lost = Need::Lost;
        let need = need_at(needs, position, &lost);
        made.push(placed(alloc, found, scope, need, &argument.value)?)?;
    }
    Ok(made)
}

/// An element of an array behind the array.
#[cycle(expr)]
fn at_index(
    alloc: Global,
    found: &mut Findings,
    site: &Site<'_, '_>,
    index_at: &(Span, Expr),
    base: Typed,
) -> Result<Typed, NoMemory>
    ensures typed { IfOk result (λ made. made
        ≡ (told_index site.now.scope.now site.now.need.now site.now.at base index_at.now.0 (expr_of index_at.now.1)).typed) }
    ensures found { OnOk result (found.new
        ≡ keep_all found.old (told_index site.now.scope.now site.now.need.now site.now.at base index_at.now.0 (expr_of index_at.now.1)).faults) }
{
    let need = index_need(alloc, &base.ty);
    let i = placed(alloc, found, site.scope, &need, &index_at.1)?;
    index(alloc, found, site, index_at.0, base, i)
}

/// A literal.
#[cycle(expr)]
fn constant(
    alloc: Global,
    found: &mut Findings,
    site: &Site<'_, '_>,
    value: &Literal,
    at: Span,
) -> Result<Typed, NoMemory>
    ensures typed { IfOk result (λ made. made ≡ (check_constant (constant_of value.now) site.now.scope.now site.now.need.now site.now.at at).typed) }
    ensures found { OnOk result (found.new
        ≡ keep_all found.old (check_constant (constant_of value.now) site.now.scope.now site.now.need.now site.now.at at).faults) }
{
    match value {
        Literal::Integer(n) => integer(alloc, found, site, at, *n),
        Literal::Bool(b) => truth(alloc, found, site, at, *b),
        Literal::String(text, list) => {
            let made = pieces(alloc, found, site.scope, list.get())?;
            string(alloc, found, site, at, text.get(), made)
        }
    }
}

/// What stands in a string; E10 is reported at what cannot be printed.
#[cycle(expr)]
fn pieces(
    alloc: Global,
    found: &mut Findings,
    scope: &Scope<'_>,
    list: &Items<StringPiece>,
) -> Result<Items<TypedPiece>, NoMemory>
    ensures all { IfOk result (λ made. made ≡ (check_pieces (pieces_of (map piece_of list.now)) scope.now).all) }
    ensures found { OnOk result (found.new ≡ keep_all found.old (check_pieces (pieces_of (map piece_of list.now)) scope.now).faults) }
{
    let mut made = Items::new(alloc);
    for piece in list.as_slice() {
        let value = placed(alloc, found, scope, &Need::Free, &piece.value)?;
        found.report(
            is_unprintable(scope.known, &value.ty),
            Rule::E10,
            value.first,
        );
        let text = piece.text.copy()?;
        made.push(TypedPiece { value, text })?;
    }
    Ok(made)
}

/// An array.
#[cycle(expr)]
fn array_of(
    alloc: Global,
    found: &mut Findings,
    site: &Site<'_, '_>,
    es: &Items<Expr>,
    at: Span,
) -> Result<Typed, NoMemory>
    ensures typed { IfOk result (λ made. made ≡ (check (x.Array at (exprs_of (map expr_of es.now))) site.now.scope.now site.now.need.now site.now.at).typed) }
    ensures found { OnOk result (found.new
        ≡ keep_all found.old (check (x.Array at (exprs_of (map expr_of es.now))) site.now.scope.now site.now.need.now site.now.at).faults) }
{
    match es.get(0) {
        None => empty_array(alloc, found, site, at),
        Some(head) => {
            let wanted = element_wanted(alloc, site.need)?;
            let need = first_element(site.need, &wanted)?;
            let head = placed(alloc, found, site.scope, &need, head)?;
            let need = other_element(&wanted, &head.ty)?;
            let made = other_elements(alloc, found, site.scope, es, &need, head)?;
            elements(alloc, found, site, at, made)
        }
    }
}

/// The elements after the first, behind that.
#[cycle(expr)]
fn other_elements(
    alloc: Global,
    found: &mut Findings,
    scope: &Scope<'_>,
    es: &Items<Expr>,
    need: &Need,
    head: Typed,
) -> Result<Items<Typed>, NoMemory>
    ensures all { IfOk result (λ made. made ≡ head ∷ (check_all (exprs_of (map expr_of (drop 1 es.now))) scope.now need.now).all) }
    ensures found { OnOk result (found.new ≡ keep_all found.old (check_all (exprs_of (map expr_of (drop 1 es.now))) scope.now need.now).faults) }
{
    let mut made = Items::new(alloc);
    made.push(head)?;
    for i in 1..es.len() {
        made.push(placed(alloc, found, scope, need, &es.as_slice()[i])?)?;
    }
    Ok(made)
}

// ---- what passes call

/// What an expression means, with its type, where it stands in no other; each rule that is broken in it is reported.
///
/// # Errors
/// [`NoMemory`] where there is no memory for the expression, and for a type of more than
/// [`MOST_MARKS`](sw_typing::MOST_MARKS) marks.
pub fn elaborate(
    alloc: Global,
    found: &mut Findings,
    scope: &Scope<'_>,
    need: &Need,
    e: &Expr,
) -> Result<Typed, NoMemory>
    ensures typed { IfOk result (λ made. made ≡ (checked scope.now (expr_of e.now) need.now).typed) }
    ensures found { OnOk result (found.new ≡ keep_all found.old (checked scope.now (expr_of e.now) need.now).faults) }
{
    placed(alloc, found, scope, need, e)
}

/// The same where a place has this need, or the first rule that is broken.
fn judged(alloc: Global, scope: &Scope<'_>, e: &Expr, need: &Need) -> Result<Typed, FrontError>
    ensures typed { IfOk result (λ made. made ≡ (checked scope.now (expr_of e.now) need.now).typed) }
    ensures unbroken { IfOk result (λ made. RefusesNone (Has (checked scope.now (expr_of e.now) need.now).faults)) }
    ensures cause { IfErr result (IsCause (Has (checked scope.now (expr_of e.now) need.now).faults)) }
{
    finds_first();
    let mut found = Findings::new();
    let made = placed(alloc, &mut found, scope, need, e)?;
    match found.first() {
        None => Ok(made),
        Some(refusal) => Err(FrontError::Refused(refusal)),
    }
}

/// What an expression means, with its type, where it stands in no other and this type is needed, or none.
///
/// # Errors
/// The first rule that is broken in it, with its place, or want of memory, as of [`elaborate`].
pub fn check_expr(
    alloc: Global,
    scope: &Scope<'_>,
    e: &Expr,
    needed: Option<&Ty>,
) -> Result<Typed, FrontError>
    ensures typed { IfOk result (λ made. made ≡ (checked scope.now (expr_of e.now) (need_of (option_copied needed.entry))).typed) }
    ensures unbroken { IfOk result (λ made. RefusesNone (Has (checked scope.now (expr_of e.now) (need_of (option_copied needed.entry))).faults)) }
    ensures cause { IfErr result (IsCause (Has (checked scope.now (expr_of e.now) (need_of (option_copied needed.entry))).faults)) }
{
    let need = need_of(needed)?;
    judged(alloc, scope, e, &need)
}
