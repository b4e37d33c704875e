//! Conversions at a place with a needed type: from a type to its optional, to `any` of a protocol, and to `any Error`.

ghost use Rattle.std.specs.Prelude.{◌≡◌, Some, IfOk, OnOk};
ghost use Rattle.sw_findings.specs.Found.{keep_all};
ghost use Rattle.sw_typed.specs.declared.expr.Form.TheVariants as form;
ghost use Rattle.sw_typing.specs.Types.{ty, bare};
ghost use Rattle.sw_typing.specs.Conversions.{typed, converts, converted, at_needed, at_like, fitted, is_unfit_type, is_unfit, e1};

use crate::facts::Facts;
use crate::known::conforms;
use crate::need::Need;
use crate::types::{bare, is_bare, is_type, with_marks};
use sqlite_items::Boxed;
use std::alloc::Global;
use sw_base::{NoMemory, Span};
use sw_findings::Findings;
use sw_rules::Rule;
use sw_typed::{Form, Typed};
use sw_value::{Base, Mark, Ty};

/// Tells whether a value of a type is converted to the type of these marks round this base.
///
/// Each type is converted to itself, a type to what its optional is converted from, and a struct or an enum to `any` of
/// what it conforms to. Nothing is converted within an array.
#[tactic(auto, unfolding(crate::specs::Conversions::converts))]
pub fn converts(known: &Facts, t: &Ty, marks: &[Mark], base: Base) -> bool
    ensures { result ≡ converts known.now t.now marks.now base }
{
    match marks {
        [] => is_bare(t, base) || conforms(known, t, base),
        [Mark::Array, ..] => is_type(t, marks, base),
        [Mark::Optional, rest @ ..] => { is_type(t, marks, base) || converts(known, t, rest, base) }
    }
}

/// To `any` of a protocol, or to `any Error`.
fn erased(alloc: Global, base: Base, e: Typed) -> Result<Typed, NoMemory>
    ensures { IfOk result (λ made. made ≡ typed (Some (bare base)) e.first (form.Erase e)) }
{
    let first = e.first;
    Ok(Typed {
        ty: Some(bare(alloc, base)),
        first,
        form: Form::Erase(Boxed::new(alloc, e)?),
    })
}

/// To the optional of these marks.
fn present(
    alloc: Global,
    marks: &[Mark],
    base: Base,
    first: Span,
    e: Typed,
) -> Result<Typed, NoMemory>
    ensures { IfOk result (λ made. made ≡ typed (Some (ty marks.now base)) first (form.Present e)) }
{
    let wrapped = Boxed::new(alloc, e)?;
    Ok(Typed {
        ty: Some(with_marks(alloc, marks, base)?),
        first,
        form: Form::Present(wrapped),
    })
}

/// Converts the expression of these parts to the type of these marks round this base, to which its type is converted.
#[tactic(auto, unfolding(crate::specs::Conversions::converted))]
fn converted(
    alloc: Global,
    marks: &[Mark],
    base: Base,
    t: Ty,
    first: Span,
    form: Form,
) -> Result<Typed, NoMemory>
    ensures { IfOk result (λ made. made ≡ converted t marks.now base (typed (Some t) first form)) }
{
    if is_type(&t, marks, base) {
        return Ok(Typed {
            ty: Some(t),
            first,
            form,
        });
    }
    match marks {
        [] => erased(
            alloc,
            base,
            Typed {
                ty: Some(t),
                first,
                form,
            },
        ),
        [Mark::Array, ..] => Ok(Typed {
            ty: Some(t),
            first,
            form,
        }),
        [Mark::Optional, rest @ ..] => {
            let inner = converted(alloc, rest, base, t, first, form)?;
            present(alloc, marks, base, first, inner)
        }
    }
}

#[tactic(auto, unfolding(crate::specs::Conversions::at_needed))]
fn at_needed(alloc: Global, known: &Facts, needed: &Ty, e: Typed) -> Result<Typed, NoMemory>
    ensures { IfOk result (λ made. made ≡ at_needed known.now needed.now e.ty e) }
{
    let Typed { ty, first, form } = e;
    match ty {
        None => Ok(Typed {
            ty: None,
            first,
            form,
        }),
        Some(t) => {
            if converts(known, &t, needed.marks.as_slice(), needed.base) {
                converted(alloc, needed.marks.as_slice(), needed.base, t, first, form)
            } else {
                Ok(Typed {
                    ty: None,
                    first,
                    form,
                })
            }
        }
    }
}

#[tactic(auto, unfolding(crate::specs::Conversions::at_like))]
fn at_like(alloc: Global, known: &Facts, other: &Ty, e: Typed) -> Result<Typed, NoMemory>
    ensures { IfOk result (λ made. made ≡ at_like known.now other.now e.ty e) }
{
    let Typed { ty, first, form } = e;
    match ty {
        None => Ok(Typed {
            ty: None,
            first,
            form,
        }),
        Some(t) => {
            if converts(known, &t, other.marks.as_slice(), other.base) {
                converted(alloc, other.marks.as_slice(), other.base, t, first, form)
            } else {
                Ok(Typed {
                    ty: Some(t),
                    first,
                    form,
                })
            }
        }
    }
}

/// What stands at a place, of an expression by itself: converted to the type that is needed, or without a type where it
/// is not converted to that one. Beside an operand it is converted to the type of the operand, where it can be.
///
/// # Errors
/// [`NoMemory`] where there is no memory for the conversion.
#[tactic(auto, unfolding(crate::specs::Conversions::fitted))]
pub fn fitted(alloc: Global, known: &Facts, need: &Need, e: Typed) -> Result<Typed, NoMemory>
    ensures { IfOk result (λ made. made ≡ fitted known.now need.now e) }
{
    match need {
        Need::Free => Ok(e),
        Need::Lost => Ok(e),
        Need::Like(t) => at_like(alloc, known, t, e),
        Need::Needed(t) => at_needed(alloc, known, t, e),
    }
}

#[tactic(auto, unfolding(crate::specs::Conversions::is_unfit_type))]
fn is_unfit_type(known: &Facts, needed: &Ty, ty: &Option<Ty>) -> bool
    ensures { result ≡ is_unfit_type known.now needed.now ty.now }
{
    match ty {
        None => false,
        Some(t) => !converts(known, t, needed.marks.as_slice(), needed.base),
    }
}

/// Tells whether an expression has a type, and not the one that is needed.
#[tactic(auto, unfolding(crate::specs::Conversions::is_unfit))]
pub fn is_unfit(known: &Facts, need: &Need, e: &Typed) -> bool
    ensures { result ≡ is_unfit known.now need.now e.now }
{
    match need {
        Need::Free => false,
        Need::Lost => false,
        Need::Like(_) => false,
        Need::Needed(t) => is_unfit_type(known, t, &e.ty),
    }
}

/// What stands at a place, of an expression by itself, as `fitted` says. Reports E1, at the first token of the whole
/// expression, where the expression has a type and not the one that is needed.
///
/// # Errors
/// [`NoMemory`] where there is no memory for the conversion.
pub fn concluded(
    alloc: Global,
    found: &mut Findings,
    known: &Facts,
    need: &Need,
    at: Span,
    e: Typed,
) -> Result<Typed, NoMemory>
    ensures typed { IfOk result (λ made. made ≡ fitted known.now need.now e) }
    ensures found { OnOk result (found.new ≡ keep_all found.old (e1 known.now need.now at e)) }
{
    found.report(is_unfit(known, need, &e), Rule::E1, at);
    fitted(alloc, known, need, e)
}
