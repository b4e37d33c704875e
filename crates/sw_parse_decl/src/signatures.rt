//! Signatures of funcs.

ghost use Rattle.std.specs.Prelude.{◌≤◌, drop, length};
ghost use Rattle.sw_syntax.specs.Members.{result_part, signature_from};
ghost use Rattle.sw_syntax.specs.ReadResults.{Gives, Inside, Moves, Stays};

use crate::builders;
use crate::marks::flag;
use crate::parameters::parameters;
use sqlite_items::Items;
use std::alloc::Global;
use sw_lex::TokenKind;
use sw_parse_expr::type_;
use sw_syntax::{Budget, Read, Test, TokenView};
use sw_tree::{Modifier, Signature, Type};

/// The type after `->`, if it stands there.
fn returned(
    alloc: Global,
    view: &TokenView,
    lenient: bool,
    at: usize,
    budget: Budget,
) -> Read<Option<Type>>
    requires { at ≤ length view.now }
    ensures gives { Gives view.now result (result_part lenient budget.brackets budget.limit budget.left (drop at view.now)) }
    ensures stays { Stays at result }
    ensures inside { Inside (length view.now) result }
{
    if !view.is(at, Test::Is(TokenKind::Arrow)) {
        return Ok((None, at, budget.left));
    }
    let (_, next) = view.take(at);
    let whole = Budget {
        left: budget.limit,
        ..budget
    };
    let (x, end, _) = type_(alloc, view, lenient, next, whole)?;
    Ok((Some(x), end, budget.left))
}

/// The signature of a func after its modifiers.
pub fn signature(
    alloc: Global,
    view: &TokenView,
    lenient: bool,
    modifiers: Items<Modifier>,
    at: usize,
    budget: Budget,
) -> Read<Signature>
    requires { at ≤ length view.now }
    ensures gives { Gives view.now result (signature_from lenient budget.brackets budget.limit budget.left modifiers (drop at view.now)) }
    ensures moves { Moves at result }
    ensures inside { Inside (length view.now) result }
{
    let (_, name_at) = view.expect(at, Test::Is(TokenKind::Func))?;
    let (token, name_end) = view.expect(name_at, Test::Name)?;
    let (parameters, parameters_end, left) = parameters(alloc, view, lenient, name_end, budget)?;
    let (is_async, async_end) = flag(view, TokenKind::Async, parameters_end);
    let (throws, throws_end) = flag(view, TokenKind::Throws, async_end);
    let (returned, end, left) = returned(
        alloc,
        view,
        lenient,
        throws_end,
        Budget { left, ..budget },
    )?;
    let name = builders::name(token)?;
    let type_parameters = Items::new(alloc);
    let signature = Signature {
        modifiers,
        name,
        type_parameters,
        parameters,
        is_async,
        throws,
        result: returned,
    };
    Ok((signature, end, left))
}
