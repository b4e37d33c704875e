//! Expressions without parts.
#![tactic(auto, using(crate::proofs::Findings::keep_append))]

ghost use Rattle.std.specs.Prelude.{◌≡◌, ◌++◌, IfOk, OnOk};
ghost use Rattle.std.specs.Option.{option_copied, option_map};
ghost use Rattle.sw_findings.specs.Found.{keep_all};
ghost use Rattle.sw_locals.specs.InBody.{local_named};
ghost use Rattle.sw_typed.specs.SyntaxOf.{expr_of};
ghost use Rattle.sw_typing.specs.Conversions.{e1, fitted};
ghost use Rattle.sw_typing.specs.Types.{array};
ghost use Rattle.sw_typing.specs.Needs.{element_wanted, implicit_wanted, nil_wanted};
ghost use Rattle.sw_resolve.specs.Names.{name_broken, named};
ghost use Rattle.sw_check_expr.specs.Forms.{e6, implicit_at, implicit_standing, is_untold, of_empty, of_integer, of_nil, of_self, of_truth, of_waited, type_before, type_by_name, type_standing};

use crate::site::{Site, conclude};
use sqlite_items::Items;
use std::alloc::Global;
use sw_base::{Duplicate, NoMemory, Span};
use sw_findings::Findings;
use sw_locals::Local;
use sw_resolve::{Scope, Standing, named};
use sw_rules::Rule;
use sw_tree::{Expr, Name};
use sw_typed::{Form, Typed};
use sw_typing::{Need, array, bare, element_wanted, implicit_wanted, is_lost, nil_wanted};
use sw_value::{Base, Ty};

/// An integer. The only error is want of memory.
pub(crate) fn integer(
    alloc: Global,
    found: &mut Findings,
    site: &Site<'_, '_>,
    at: Span,
    value: i64,
) -> Result<Typed, NoMemory>
    ensures typed { IfOk result (λ made. made ≡ fitted site.now.scope.now.known.now site.now.need.now (of_integer at value)) }
    ensures found { OnOk result (found.new ≡ keep_all found.old (e1 site.now.scope.now.known.now site.now.need.now site.now.at (of_integer at value))) }
{
    let made = Typed {
        ty: Some(bare(alloc, Base::Int)),
        first: at,
        form: Form::Integer(value),
    };
    conclude(alloc, found, site, made)
}

/// `true` or `false`. The only error is want of memory.
pub(crate) fn truth(
    alloc: Global,
    found: &mut Findings,
    site: &Site<'_, '_>,
    at: Span,
    value: bool,
) -> Result<Typed, NoMemory>
    ensures typed { IfOk result (λ made. made ≡ fitted site.now.scope.now.known.now site.now.need.now (of_truth at value)) }
    ensures found { OnOk result (found.new ≡ keep_all found.old (e1 site.now.scope.now.known.now site.now.need.now site.now.at (of_truth at value))) }
{
    let made = Typed {
        ty: Some(bare(alloc, Base::Bool)),
        first: at,
        form: Form::Bool(value),
    };
    conclude(alloc, found, site, made)
}

/// E6: the place does not tell the type, and none is needed that is not there.
#[tactic(auto, unfolding(crate::specs::Forms::is_untold))]
fn is_untold(need: &Need, ty: &Option<Ty>) -> bool
    ensures { result ≡ is_untold need.now ty.now }
{
    ty.is_none() && !is_lost(need)
}

/// `nil`; E6 is reported at it. The only error is want of memory.
pub(crate) fn nil(
    alloc: Global,
    found: &mut Findings,
    site: &Site<'_, '_>,
    at: Span,
) -> Result<Typed, NoMemory>
    ensures typed { IfOk result (λ made. made ≡ fitted site.now.scope.now.known.now site.now.need.now (of_nil site.now.need.now at)) }
    ensures found { OnOk result (found.new ≡ keep_all found.old
        (e6 site.now.need.now (nil_wanted site.now.need.now) at
        ++ e1 site.now.scope.now.known.now site.now.need.now site.now.at (of_nil site.now.need.now at))) }
{
    let ty = nil_wanted(site.need)?;
    found.report(is_untold(site.need, &ty), Rule::E6, at);
    let made = Typed {
        ty,
        first: at,
        form: Form::Nil,
    };
    conclude(alloc, found, site, made)
}

fn array_of(alloc: Global, element: &Option<Ty>) -> Result<Option<Ty>, NoMemory>
    ensures { IfOk result (λ made. made ≡ option_map (λ t. array t) element.now) }
{
    match element {
        None => Ok(None),
        Some(t) => Ok(Some(array(alloc, t)?)),
    }
}

/// `[]`; E6 is reported at it. The only error is want of memory.
pub(crate) fn empty_array(
    alloc: Global,
    found: &mut Findings,
    site: &Site<'_, '_>,
    at: Span,
) -> Result<Typed, NoMemory>
    ensures typed { IfOk result (λ made. made ≡ fitted site.now.scope.now.known.now site.now.need.now (of_empty site.now.need.now at)) }
    ensures found { OnOk result (found.new ≡ keep_all found.old
        (e6 site.now.need.now (element_wanted site.now.need.now) at
        ++ e1 site.now.scope.now.known.now site.now.need.now site.now.at (of_empty site.now.need.now at))) }
{
    let element = element_wanted(alloc, site.need)?;
    found.report(is_untold(site.need, &element), Rule::E6, at);
    let ty = array_of(alloc, &element)?;
    let made = Typed {
        ty,
        first: at,
        form: Form::Array(Items::new(alloc)),
    };
    conclude(alloc, found, site, made)
}

/// `self`. The only error is want of memory.
pub(crate) fn own(
    alloc: Global,
    found: &mut Findings,
    site: &Site<'_, '_>,
    at: Span,
) -> Result<Typed, NoMemory>
    ensures typed { IfOk result (λ made. made ≡ fitted site.now.scope.now.known.now site.now.need.now (of_self site.now.scope.now at)) }
    ensures found { OnOk result (found.new ≡ keep_all found.old
        (e1 site.now.scope.now.known.now site.now.need.now site.now.at (of_self site.now.scope.now at))) }
{
    let scope = site.scope;
    let made = Typed {
        ty: scope.own_type(alloc),
        first: at,
        form: Form::SelfValue,
    };
    conclude(alloc, found, site, made)
}

/// A name that stands alone; E5 is reported at it. The only error is want of memory.
pub(crate) fn name(
    alloc: Global,
    found: &mut Findings,
    site: &Site<'_, '_>,
    name: &Name,
) -> Result<Typed, NoMemory>
    ensures typed { IfOk result (λ made. made ≡ fitted site.now.scope.now.known.now site.now.need.now (named site.now.scope.now name.now)) }
    ensures found { OnOk result (found.new ≡ keep_all found.old
        (name_broken site.now.scope.now name.now
        ++ e1 site.now.scope.now.known.now site.now.need.now site.now.at (named site.now.scope.now name.now))) }
{
    let made = named(alloc, found, site.scope, name)?;
    conclude(alloc, found, site, made)
}

#[tactic(auto, unfolding(crate::specs::Forms::of_waited))]
fn of_waited(alloc: Global, at: Span, local: Option<&Local>) -> Result<Typed, NoMemory>
    ensures { IfOk result (λ made. made ≡ of_waited at (option_copied local.entry)) }
{
    match local {
        None => Ok(Typed {
            ty: None,
            first: at,
            form: Form::Unresolved(Items::new(alloc)),
        }),
        Some(local) => Ok(Typed {
            ty: local.ty.copy()?,
            first: at,
            form: Form::Wait(local.variable),
        }),
    }
}

/// The outcome of an issued call, by its name. The only error is want of memory.
pub(crate) fn waited(
    alloc: Global,
    found: &mut Findings,
    site: &Site<'_, '_>,
    name: &Name,
) -> Result<Typed, NoMemory>
    ensures typed { IfOk result (λ made. made
        ≡ fitted site.now.scope.now.known.now site.now.need.now (of_waited name.now.span (local_named name.now.text site.now.scope.now.locals.now))) }
    ensures found { OnOk result (found.new ≡ keep_all found.old
        (e1 site.now.scope.now.known.now site.now.need.now site.now.at (of_waited name.now.span (local_named name.now.text site.now.scope.now.locals.now)))) }
{
    let scope = site.scope;
    let made = of_waited(alloc, name.span, scope.local(name.text.as_bytes()))?;
    conclude(alloc, found, site, made)
}

// ---- what stands before the name of a member

#[tactic(auto, unfolding(crate::specs::Forms::implicit_standing))]
fn implicit_standing(dot: Span, ty: &Option<Ty>) -> Standing
    ensures { result ≡ implicit_standing dot ty.now }
{
    match ty {
        None => Standing::Lost(dot),
        Some(t) => Standing::Type(Some(t.base), dot),
    }
}

/// The type in which `.name` is looked for; E6 is reported at the `.`. The only error is want of memory.
pub(crate) fn implicit(
    alloc: Global,
    found: &mut Findings,
    need: &Need,
    dot: Span,
) -> Result<Standing, NoMemory>
    ensures standing { IfOk result (λ made. made ≡ implicit_at need.now dot) }
    ensures found { OnOk result (found.new ≡ keep_all found.old (e6 need.now (implicit_wanted need.now) dot)) }
{
    let ty = implicit_wanted(alloc, need)?;
    found.report(is_untold(need, &ty), Rule::E6, dot);
    Ok(implicit_standing(dot, &ty))
}

/// A type's name before a `.`. The only error is want of numbers for types.
fn type_standing(scope: &Scope<'_>, name: &Name) -> Result<Standing, NoMemory>
    ensures { IfOk result (λ made. made ≡ type_standing scope.now name.now) }
{
    let base = scope.type_named(name.text.as_bytes())?;
    Ok(Standing::Type(base, name.span))
}

/// The type that an expression names before a `.`; none where it is a value. The only error is want of numbers for types.
pub(crate) fn type_before(scope: &Scope<'_>, e: &Expr) -> Result<Option<Standing>, NoMemory>
    ensures { IfOk result (λ made. made ≡ type_before scope.now (expr_of e.now)) }
{
    match e {
        Expr::Name(name) => type_by_name(scope, name.get()),
        _ => Ok(None),
    }
}

#[tactic(auto, unfolding(crate::specs::Forms::type_by_name))]
fn type_by_name(scope: &Scope<'_>, name: &Name) -> Result<Option<Standing>, NoMemory>
    ensures { IfOk result (λ made. made ≡ type_by_name scope.now name.now) }
{
    if scope.names_type(name.text.as_bytes()) {
        Ok(Some(type_standing(scope, name)?))
    } else {
        Ok(None)
    }
}
