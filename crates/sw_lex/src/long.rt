//! The first rule that a source breaks which is too long: one that it breaks at its first byte.

ghost use Rattle.std.specs.Prelude.{◌≡◌, ◌<◌, ◌≤◌, ◌+◌, ◌-◌, IfOk, OnOk, drop, length, true, false};
ghost use Rattle.std.specs.Str.{IsValidUpTo};
ghost use Rattle.sw_base.specs.Limits.{longest_source};
ghost use Rattle.sw_lex.specs.Cut as cut;
ghost use Rattle.sw_lex.specs.Lexemes.{size_of};
ghost use Rattle.sw_lex.specs.Matching.{IsWithin};
ghost use Rattle.sw_lex.specs.Characters.{IsBoundary};
ghost use Rattle.sw_lex.specs.Long as spec;

use crate::brackets::{closes, is_inside, track};
use crate::bytes::valid_len;
use crate::lexemes::{Lexeme, first_lexeme, size_of};
use crate::limits::is_too_large;
use std::alloc::Global;
use sw_base::{NoMemory, Stack};
use sw_rules::Rule;

/// The first gap or token of a source, or those of a string that begins at its first byte, so far.
#[derive(Debug, Drop)]
pub struct Prefix {
    /// How many bytes they have.
    pub at: usize,
    /// The brackets that are open within the string, where `\(` is true.
    pub opens: Stack<bool>,
    /// Whether all these bytes are characters.
    pub valid_so_far: bool,
}

/// Whether the first byte is no part of a character.
fn starts_badly(source: &[u8]) -> bool
    requires { 4 ≤ length source.now }
    ensures bad { result ≡ true → IsValidUpTo source.now 0 }
    ensures valid { IsValidUpTo source.now 0 → result ≡ true }
{
    valid_len(&source[..4]) == 0
}

/// The rule that is broken where the cut stops so.
fn rule_of_stop(stop: Lexeme) -> Rule
    ensures { result ≡ spec.rule_of_stop stop }
{
    match stop {
        Lexeme::Malformed => Rule::L2,
        _ => Rule::L3,
    }
}

impl Prefix {
    /// Nothing is cut yet.
    fn new(alloc: Global) -> Prefix
        ensures { result ≡ spec.empty_prefix }
    {
        Prefix {
            at: 0,
            opens: Stack::new(alloc),
            valid_so_far: true,
        }
    }

    /// What begins after what is cut so far.
    fn next(&self, source: &[u8]) -> Lexeme
        requires { spec.Known source.now self.now }
        ensures value { result ≡ spec.next self.now source.now }
        ensures within { IsWithin result (length source.now - self.now.at) }
    {
        first_lexeme(
            &source[self.at..],
            is_inside(&self.opens),
            closes(&self.opens),
            self.valid_so_far,
        )
    }

    /// Goes on to the end of the gap or token that begins here.
    fn advance(&mut self, source: &[u8], item: Lexeme) -> Result<(), NoMemory>
        requires known { spec.Known source.now self.old }
        requires start { spec.StopsAtStart self.old }
        requires next { item ≡ spec.next self.old source.now }
        requires some { 1 ≤ size_of item }
        requires within { self.old.at + size_of item ≤ length source.now }
        ensures known { OnOk result (spec.Known source.now self.new) }
        ensures at { OnOk result (self.new.at ≡ self.old.at + size_of item) }
    {
        let end = self.at + size_of(item);
        self.valid_so_far = are_characters(self.valid_so_far, source, self.at, end);
        track(&mut self.opens, item)?;
        self.at = end;
        Ok(())
    }
}

/// Whether the bytes up to an end are characters, where those up to here are or not.
fn are_characters(valid_so_far: bool, source: &[u8], at: usize, end: usize) -> bool
    requires order { at ≤ end }
    requires within { end ≤ length source.now }
    requires boundary { IsBoundary (drop at source.now) (end - at) }
    requires characters { spec.AreCharacters source.now at valid_so_far }
    ensures { spec.AreCharacters source.now end result }
{
    if !valid_so_far {
        return false;
    }
    valid_len(&source[at..end]) == end - at
}

/// The first broken rule of a source that is too long. It is broken at the first byte.
pub fn first_of_long(alloc: Global, source: &[u8]) -> Result<Rule, NoMemory>
    requires { longest_source < length source.now }
    ensures { IfOk result (λ rule. spec.IsFirstAtStart source.now rule) }
{
    if starts_badly(source) {
        return Ok(Rule::L1);
    }
    let mut prefix = Prefix::new(alloc);
    let first = prefix.next(source);
    if is_too_large(source, first) {
        return Ok(Rule::L4);
    }
    let mut item = first;
    // the proof gives the loop's invariant by this label
    'prefix: loop {
        if size_of(item) == 0 {
            return Ok(rule_of_stop(item));
        }
        prefix.advance(source, item)?;
        if !is_inside(&prefix.opens) {
            return Ok(Rule::L5);
        }
        item = prefix.next(source);
    }
}
