//! What reads the sentences of a nonterminal.

ghost use Rattle.std.specs.Prelude.{◌≤◌, length};
ghost use Rattle.sw_syntax.specs.Reader.{Ends};
ghost use Rattle.sw_syntax.specs.Nonterminals.{Nonterminal};

use crate::view::{Budget, Stop, TokenView};
use std::alloc::Global;

/// The budget of a source.
pub const SOURCE_BUDGET: Budget = Budget {
    brackets: 64,
    left: 100,
    limit: 100,
};

/// Reads the sentences of one nonterminal of the grammar, for where they end alone.
pub trait Reader {
    /// The nonterminal.
    ghost nonterminal: { Nonterminal };

    /// The position after the sentence that stands at this one, within the budget of a source.
    fn end(alloc: Global, view: &TokenView, lenient: bool, at: usize) -> Result<usize, Stop>
        requires { at ≤ length view.now }
        ensures { Ends lenient nonterminal view.now at result };
}
