//! Where an expression stands.

ghost use Rattle.std.specs.Prelude.{◌≡◌, ◌++◌, IfOk, OnOk};
ghost use Rattle.std.specs.Option.{option_copied};
ghost use Rattle.sw_findings.specs.Found.{keep_all};
ghost use Rattle.sw_typing.specs.Conversions.{e1, fitted};
ghost use Rattle.sw_check_expr.specs.Typing.{need_of};

use std::alloc::Global;
use sw_base::{Duplicate, NoMemory, Span};
use sw_findings::Findings;
use sw_resolve::Scope;
use sw_typed::Typed;
use sw_typing::{Need, concluded};
use sw_value::Ty;

/// Where an expression stands: what it sees, what the place needs of its type, and the first token of the whole expression
/// there, at which E1 stands.
#[derive(Drop)]
pub struct Site<'a, 's> {
    pub scope: &'a Scope<'s>,
    pub need: &'a Need,
    pub at: Span,
}

/// What stands at a place, of what an expression is by itself; E1 is reported. The only error is want of memory.
pub(crate) fn conclude(
    alloc: Global,
    found: &mut Findings,
    site: &Site<'_, '_>,
    e: Typed,
) -> Result<Typed, NoMemory>
    ensures typed { IfOk result (λ made. made ≡ fitted site.now.scope.now.known.now site.now.need.now e) }
    ensures found { OnOk result (found.new ≡ keep_all found.old (e1 site.now.scope.now.known.now site.now.need.now site.now.at e)) }
{
    let scope = site.scope;
    concluded(alloc, found, scope.known, site.need, site.at, e)
}

/// The need of a place where this type is needed, or none. The only error is want of memory.
#[tactic(auto, unfolding(crate::specs::Typing::need_of))]
pub(crate) fn need_of(needed: Option<&Ty>) -> Result<Need, NoMemory>
    ensures { IfOk result (λ need. need ≡ need_of (option_copied needed.entry)) }
{
    match needed {
        None => Ok(Need::Free),
        Some(t) => Ok(Need::Needed(t.copy()?)),
    }
}
