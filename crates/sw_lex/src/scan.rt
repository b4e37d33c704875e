//! Reads a source that is not too long once: cuts it into gaps and tokens, and keeps of each what is asked for later.

ghost use Rattle.std.specs.Prelude.{◌≡◌, ◌<◌, ◌≤◌, ◌+◌, ◌-◌, ◌^◌, IfOk, IfSome, OnOk, drop, length, take};
ghost use Rattle.std.specs.Str.{IsUtf8};
ghost use Rattle.sw_base.specs.Limits.{longest_source};
ghost use Rattle.sw_lex.specs.Lexemes.{size_of};
ghost use Rattle.sw_lex.specs.Characters.{IsFirstBad, IsBoundary};
ghost use Rattle.sw_lex.specs.Matching.{IsWithin};
ghost use Rattle.sw_lex.specs.Scanning as spec;

use crate::brackets::{closes, is_inside, track};
use crate::bytes::valid_len;
use crate::emit::TokenWriter;
use crate::lexemes::{Lexeme, first_lexeme, size_of};
use crate::limits::is_too_large;
use crate::places::{ORIGIN, Spot, moved};
use std::alloc::Global;
use sw_base::{NoMemory, Stack};

/// What is known of a source after the gaps and tokens that it is cut into so far.
#[derive(Debug, Drop)]
pub struct Scan {
    /// How many bytes they have.
    pub at: usize,
    /// The brackets that are open within the outermost string, where `\(` is true.
    pub opens: Stack<bool>,
    /// Where that string begins.
    pub outer: Spot,
    /// The first byte that is no part of a character.
    pub bad: Option<Spot>,
    /// The first integer that is too large.
    pub large: Option<Spot>,
    /// Their tokens.
    pub emitted: TokenWriter,
}

/// Where the outermost string begins after what begins here.
fn outermost(opens: &Stack<bool>, outer: Spot, here: Spot) -> Spot
    ensures { result ≡ spec.outermost opens.now outer here }
{
    if is_inside(opens) { outer } else { here }
}

/// The first byte that is no part of a character, if it is one of so many from here on.
fn bad_within(source: &[u8], here: Spot, size: usize) -> Option<Spot>
    requires short { length source.now ≤ longest_source }
    requires within { here.at + size ≤ length source.now }
    requires boundary { IsBoundary (drop here.at source.now) size }
    requires valid_so_far { IsUtf8 (take here.at source.now) }
    requires place { spec.IsSpot source.now here }
    ensures prefix { IsFirstBad source.now (here.at + size) result }
    ensures placed { IfSome result (spec.IsSpot source.now) }
{
    let bytes = &source[here.at..];
    let valid = valid_len(&bytes[..size]);
    if valid == size {
        return None;
    }
    Some(Spot {
        at: here.at + valid,
        place: moved(here.place, &bytes[..valid]),
    })
}

/// The first byte that is no part of a character, if it is one of those before or of so many from here on.
pub fn first_bad(bad: Option<Spot>, source: &[u8], here: Spot, size: usize) -> Option<Spot>
    requires short { length source.now ≤ longest_source }
    requires within { here.at + size ≤ length source.now }
    requires boundary { IsBoundary (drop here.at source.now) size }
    requires prefix { IsFirstBad source.now here.at bad }
    requires place { spec.IsSpot source.now here }
    requires placed { IfSome bad (spec.IsSpot source.now) }
    ensures prefix { IsFirstBad source.now (here.at + size) result }
    ensures placed { IfSome result (spec.IsSpot source.now) }
{
    match bad {
        Some(_) => bad,
        None => bad_within(source, here, size),
    }
}

/// The first integer that is too large.
fn first_large(large: Option<Spot>, bytes: &[u8], item: Lexeme, here: Spot) -> Option<Spot>
    requires { size_of item ≤ length bytes.now }
    ensures { result ≡ spec.first_large large bytes.now item here }
{
    match large {
        Some(_) => large,
        None => {
            if is_too_large(bytes, item) {
                Some(here)
            } else {
                None
            }
        }
    }
}

impl Scan {
    /// Nothing is cut yet.
    fn new(alloc: Global) -> Scan
        ensures { result ≡ spec.nothing_cut }
    {
        let origin = Spot {
            at: 0,
            place: ORIGIN,
        };
        Scan {
            at: 0,
            opens: Stack::new(alloc),
            outer: origin,
            bad: None,
            large: None,
            emitted: TokenWriter::new(alloc),
        }
    }

    /// Where what begins next stands.
    pub fn here(&self) -> Spot
        ensures { result ≡ spec.here self.now }
    {
        Spot {
            at: self.at,
            place: self.emitted.here.place,
        }
    }

    /// What begins after what is cut so far.
    fn next(&self, source: &[u8]) -> Lexeme
        requires { spec.Known source.now self.now }
        ensures value { result ≡ spec.next self.now source.now }
        ensures within { IsWithin result (length source.now - self.now.at) }
    {
        first_lexeme(
            &source[self.at..],
            is_inside(&self.opens),
            closes(&self.opens),
            self.bad.is_none(),
        )
    }

    /// Goes on to the end of the gap or token that begins here.
    fn advance(&mut self, alloc: Global, source: &[u8], item: Lexeme) -> Result<(), NoMemory>
        requires short { length source.now ≤ longest_source }
        requires known { spec.Known source.now self.old }
        requires next { item ≡ spec.next self.old source.now }
        requires some { 1 ≤ size_of item }
        requires within { self.old.at + size_of item ≤ length source.now }
        ensures known { OnOk result (spec.Known source.now self.new) }
        ensures at { OnOk result (self.new.at ≡ self.old.at + size_of item) }
    {
        let here = self.here();
        let size = size_of(item);
        self.outer = outermost(&self.opens, self.outer, here);
        self.bad = first_bad(self.bad, source, here, size);
        self.large = first_large(self.large, &source[self.at..], item, here);
        self.emitted.write(alloc, &source[self.at..], item)?;
        track(&mut self.opens, item)?;
        self.at += size;
        Ok(())
    }

    /// All of a source's gaps and tokens, and what follows them.
    pub fn read(alloc: Global, source: &[u8]) -> Result<(Scan, Lexeme), NoMemory>
        requires { length source.now ≤ longest_source }
        ensures { IfOk result (λ r. spec.Scanned source.now r.0 r.1) }
    {
        let mut scan = Scan::new(alloc);
        // the proof gives the loop's invariant by this label
        'read: loop {
            let item = scan.next(source);
            if size_of(item) == 0 {
                return Ok((scan, item));
            }
            scan.advance(alloc, source, item)?;
        }
    }
}
