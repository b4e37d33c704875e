//! The broken rules of a source, and the first of them.

ghost use Rattle.std.specs.Prelude.{◌≡◌, ◌≤◌, ◌⊎◌, ℕ, List, Some, None, IfSome, false, length, true};
ghost use Rattle.std.specs.Str.Lossy.{utf8_valid_len};
ghost use Rattle.sw_base.specs.Limits.{longest_source};
ghost use Rattle.sw_lex.specs.Characters.{IsFirstBad};
ghost use Rattle.sw_lex.specs.Tokens.{place_at};
ghost use Rattle.sw_lex.specs.Scanning.{ArePlaces, IsSpot, Scanned, by_offset};
ghost use Rattle.sw_lex.specs.Scanning as scanning;
ghost use Rattle.sw_lex.specs.Rules as spec;
ghost use Rattle.sw_lex.specs.FirstBroken as broken;

use crate::brackets::is_inside;
use crate::lexemes::Lexeme;
use crate::places::Spot;
use crate::scan::{Scan, first_bad};
use sw_rules::Rule;

/// A broken rule, and where it is broken.
pub type Found = Option<(Rule, Spot)>;

fn is_before(a: (Rule, Spot), b: (Rule, Spot)) -> bool
    ensures first { result ≡ true → broken.IsBefore a.0 a.1.at b.0 b.1.at }
    ensures second { result ≡ false → broken.IsBefore b.0 b.1.at a.0 a.1.at }
{
    if a.1.at < b.1.at {
        return true;
    }
    if b.1.at < a.1.at {
        return false;
    }
    !b.0.stands_before(&a.0)
}

fn earlier(a: Found, b: Found) -> Found
    ensures first { broken.IsFirst (λ rule at. (by_offset a ≡ Some (rule, at))
        ⊎ (by_offset b ≡ Some (rule, at))) (by_offset result) }
    ensures placed { (source : List ℕ) → IfSome a (λ x. IsSpot source x.1)
        → IfSome b (λ x. IsSpot source x.1) → IfSome result (λ x. IsSpot source x.1) }
{
    match a {
        None => b,
        Some(x) => match b {
            None => a,
            Some(y) => if is_before(x, y) { a } else { b },
        },
    }
}

/// The first byte that is no part of a character. Where none is found so far, it is looked for from where the
/// cut stopped on.
fn bad_found(scan: &Scan, source: &[u8]) -> Found
    requires short { length source.now ≤ longest_source }
    requires known { ArePlaces source.now scan.now }
    requires prefix { IsFirstBad source.now scan.now.at scan.now.bad }
    requires inside { scan.now.at ≤ length source.now }
    ensures value { by_offset result ≡ broken.bad_found source.now (utf8_valid_len source.now) }
    ensures placed { IfSome result (λ x. IsSpot source.now x.1) }
{
    match first_bad(scan.bad, source, scan.here(), source.len() - scan.at) {
        None => None,
        Some(spot) => Some((Rule::L1, spot)),
    }
}

/// Where a cut stops, or where the outermost string begins that it stops in.
fn stop_spot(scan: &Scan) -> Spot
    ensures at { result.at ≡ scanning.stop_of scan.now }
    ensures placed { (source : List ℕ) → ArePlaces source scan.now → IsSpot source result }
{
    if is_inside(&scan.opens) {
        scan.outer
    } else {
        scan.here()
    }
}

fn stop_found(scan: &Scan, stop: Lexeme) -> Found
    ensures value { by_offset result ≡ broken.fault_found stop (scanning.stop_of scan.now) }
    ensures placed { (source : List ℕ) → ArePlaces source scan.now
        → IfSome result (λ x. IsSpot source x.1) }
{
    match stop {
        Lexeme::Malformed => Some((Rule::L2, stop_spot(scan))),
        Lexeme::Unterminated => Some((Rule::L3, stop_spot(scan))),
        _ => None,
    }
}

fn large_found(scan: &Scan) -> Found
    ensures value { by_offset result ≡ broken.large_found (scanning.or_later scan.now.large None) }
    ensures placed { (source : List ℕ) → ArePlaces source scan.now
        → IfSome result (λ x. IsSpot source x.1) }
{
    match scan.large {
        None => None,
        Some(spot) => Some((Rule::L4, spot)),
    }
}

/// The first rule that a source breaks which is not too long, if any, by what was read of it.
pub fn first_broken(scan: &Scan, source: &[u8], stop: Lexeme) -> Found
    requires short { length source.now ≤ longest_source }
    requires read { Scanned source.now scan.now stop }
    ensures first { broken.IsFirst (spec.Breaks source.now) (by_offset result) }
    ensures place { IfSome result (λ x. x.1.place ≡ place_at source.now x.1.at) }
{
    let bad = bad_found(scan, source);
    let fault = stop_found(scan, stop);
    let large = large_found(scan);
    earlier(earlier(bad, fault), large)
}
