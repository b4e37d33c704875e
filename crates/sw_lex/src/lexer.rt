//! The tokens of a source, or the first broken rule.

ghost use Rattle.std.specs.Prelude.{IfErr, IfOk};
ghost use Rattle.sw_lex.specs.Tokens.{CutsInto, EndsOnce};
ghost use Rattle.sw_lex.specs.Lexing.{IsOnlyCut};
ghost use Rattle.sw_lex.specs.Rules.{Refuses};
ghost use Rattle.sw_rules.specs.Pass.{IsCause, RefusesNone};

use crate::broken::first_broken;
use crate::long::first_of_long;
use crate::places::ORIGIN;
use crate::scan::Scan;
use crate::tokens::Tokens;
use std::alloc::Global;
use sw_base::LONGEST_SOURCE;
use sw_rules::{FrontError, Refusal};

/// The tokens of a source, ended by one for the end of the source.
///
/// It is refused exactly where it breaks one of the rules `L1` to `L5`, by the first that it breaks:
/// the least by place, and of one place the first by order. The only other error is want of memory.
/// It reads the source once, from its start on, and the time is linear in the bytes.
pub fn lex(alloc: Global, source: &[u8]) -> Result<Tokens, FrontError>
    ensures tokens { IfOk result (λ tokens. CutsInto source.now tokens) }
    ensures only { IfOk result (λ tokens. IsOnlyCut source.now tokens) }
    ensures ended { IfOk result (λ tokens. EndsOnce tokens) }
    ensures unbroken { IfOk result (λ tokens. RefusesNone (Refuses source.now)) }
    ensures refused { IfErr result (λ error. IsCause (Refuses source.now) error) }
{
    if LONGEST_SOURCE < source.len() {
        let rule = first_of_long(alloc, source)?;
        return Err(FrontError::Refused(Refusal { rule, span: ORIGIN }));
    }
    let (scan, stop) = Scan::read(alloc, source)?;
    match first_broken(&scan, source, stop) {
        None => {
            let emitted = scan.emitted.ended(alloc, source.len())?;
            Ok(Tokens::new(emitted))
        }
        Some((rule, spot)) => Err(FrontError::Refused(Refusal {
            rule,
            span: spot.place,
        })),
    }
}
