//! What separates the items of a list.

ghost use Rattle.std.specs.Prelude.{◌≤◌, length, IfSome};
ghost use Rattle.sw_parse_decl.specs.Lists.{GoesOnAfter};

use sw_lex::TokenKind;
use sw_syntax::{Opening, Test, TokenView, stands};

/// Where the next item of a list may begin, after an item that ends at this position, if the list goes on.
pub fn past_separator(view: &TokenView, at: usize) -> Option<usize>
    ensures goes { GoesOnAfter view.now at result }
    ensures stays { IfSome result (λ next. at ≤ next) }
    ensures inside { IfSome result (λ next. next ≤ length view.now) }
{
    if view.is(at, Test::Is(TokenKind::Semicolon)) {
        let (_, next) = view.take(at);
        return Some(next);
    }
    if stands(view, at, Opening::NewLine) {
        return Some(at);
    }
    None
}
