//! Arrays and strings, of what their parts are.
#![tactic(auto, using(crate::proofs::Findings::keep_append))]

ghost use Rattle.std.specs.Prelude.{◌≡◌, ◌++◌, IfOk, OnOk};
ghost use Rattle.sw_findings.specs.Found.{keep_all};
ghost use Rattle.sw_typing.specs.Conversions.{e1, fitted};
ghost use Rattle.sw_typing.specs.Types.{array};
ghost use Rattle.sw_check_expr.specs.Forms.{all_printed, array_type, is_printed, of_elements, of_string, string_type};

use crate::calls::all_typed;
use crate::site::{Site, conclude};
use sqlite_items::{Boxed, Items};
use std::alloc::Global;
use sw_base::{Duplicate, NoMemory, Span, Text};
use sw_findings::Findings;
use sw_typed::{Form, Typed, TypedPiece};
use sw_typing::{Facts, array, bare, is_printable};
use sw_value::{Base, Ty};

/// The type of an array of these elements; none where one of them has none. The only error is want of memory.
#[tactic(auto, unfolding(crate::specs::Forms::array_type))]
fn array_type(alloc: Global, es: &[Typed]) -> Result<Option<Ty>, NoMemory>
    ensures { IfOk result (λ made. made ≡ array_type es.now) }
{
    match es {
        [] => Ok(None),
        [first, rest @ ..] => {
            if !all_typed(rest) {
                return Ok(None);
            }
            match &first.ty {
                None => Ok(None),
                Some(t) => Ok(Some(array(alloc, t)?)),
            }
        }
    }
}

/// An array of elements. The only error is want of memory.
pub(crate) fn elements(
    alloc: Global,
    found: &mut Findings,
    site: &Site<'_, '_>,
    at: Span,
    es: Items<Typed>,
) -> Result<Typed, NoMemory>
    ensures typed { IfOk result (λ made. made ≡ fitted site.now.scope.now.known.now site.now.need.now (of_elements at es)) }
    ensures found { OnOk result (found.new ≡ keep_all found.old (e1 site.now.scope.now.known.now site.now.need.now site.now.at (of_elements at es))) }
{
    let ty = array_type(alloc, es.as_slice())?;
    let made = Typed {
        ty,
        first: at,
        form: Form::Array(es),
    };
    conclude(alloc, found, site, made)
}

/// Tells whether a value has a type that can be printed.
#[tactic(auto, unfolding(crate::specs::Forms::is_printed))]
fn is_printed(known: &Facts, ty: &Option<Ty>) -> bool
    ensures { result ≡ is_printed known.now ty.now }
{
    match ty {
        None => false,
        Some(t) => is_printable(known, t),
    }
}

fn all_printed(known: &Facts, pieces: &[TypedPiece]) -> bool
    ensures { result ≡ all_printed known.now pieces.now }
{
    pieces
        .iter()
        .all(|piece| is_printed(known, &piece.value.ty))
}

#[tactic(auto, unfolding(crate::specs::Forms::string_type))]
fn string_type(alloc: Global, known: &Facts, pieces: &[TypedPiece]) -> Option<Ty>
    ensures { result ≡ string_type known.now pieces.now }
{
    if all_printed(known, pieces) {
        Some(bare(alloc, Base::Str))
    } else {
        None
    }
}

/// A string of pieces. The only error is want of memory.
pub(crate) fn string(
    alloc: Global,
    found: &mut Findings,
    site: &Site<'_, '_>,
    at: Span,
    text: &Text,
    pieces: Items<TypedPiece>,
) -> Result<Typed, NoMemory>
    ensures typed { IfOk result (λ made. made
        ≡ fitted site.now.scope.now.known.now site.now.need.now (of_string site.now.scope.now at text.now pieces)) }
    ensures found { OnOk result (found.new ≡ keep_all found.old
        (e1 site.now.scope.now.known.now site.now.need.now site.now.at (of_string site.now.scope.now at text.now pieces))) }
{
    let scope = site.scope;
    let ty = string_type(alloc, scope.known, pieces.as_slice());
    let text = Boxed::new(alloc, text.copy()?)?;
    let made = Typed {
        ty,
        first: at,
        form: Form::Text(text, pieces),
    };
    conclude(alloc, found, site, made)
}
