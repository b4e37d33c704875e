//! A list of tokens, each kept in few bytes.

ghost use Rattle.std.specs.Prelude.{◌≡◌, ◌<◌, ◌+◌, ◌^◌, [], ◌∷◌, ◌++◌, OnOk, IfOk, IfSome, length, slice_get, Some};
ghost use Rattle.sw_lex.specs.Kept.{IsGrown};
ghost use Rattle.sw_lex.specs.Tokens.{token_of};

use crate::token::{Token, TokenKind};
use crate::tokens::TokenRef;
use std::alloc::Global;
use std::marker::Model;
use sw_base::{NoMemory, Span, Text};

/// A token as it is kept, with the number of its text.
#[derive(Clone, Copy, Debug)]
struct Entry {
    span: Span,
    text: u32,
    kind: TokenKind,
    first_on_line: bool,
    touches: bool,
    after_space: bool,
}

const _: () = prove!(size_of::<Entry>() == 16);

/// The tokens of a source so far, which contracts see as the list of them.
///
/// A token takes 16 bytes. Its text is kept apart, and once where the last token of its kind has the
/// same, so that each mark and each reserved word takes memory for one text.
#[derive(Debug, Drop)]
pub struct KeptTokens {
    entries: Vec<Entry>,
    texts: Pool,
}

impl Model for KeptTokens {
    ghost use Rattle.std.specs.Prelude.{List};
    ghost use Rattle.sw_lex.specs.declared.token.Token.{Token};
    ghost use Rattle.sw_lex.specs.Kept.{tokens_in, AreKept};

    ghost Value = { List Token };

    ghost view = { λ tokens. tokens_in tokens.texts tokens.entries.items };

    ghost invariant = { λ tokens. AreKept tokens.texts tokens.entries.items };
}

impl KeptTokens {
    /// No token. It allocates nothing yet.
    pub fn new(alloc: Global) -> KeptTokens
        ensures { result ≡ [] }
    {
        KeptTokens {
            entries: Vec::new(alloc),
            texts: Pool::new(alloc),
        }
    }

    /// The number of tokens.
    pub fn len(&self) -> usize
        ensures { result ≡ length self.now }
    {
        self.entries.len()
    }

    /// The token at an index that is known to be in the list.
    pub fn at(&self, at: usize) -> TokenRef<'_>
        requires { at < length self.now }
        ensures token { slice_get self.now at ≡ Some (token_of result) }
        ensures countable { at + 1 < 2 ^ 64 }
    {
        let entry = &self.entries.as_slice()[at];
        TokenRef {
            text: self.texts.at(entry.text),
            span: entry.span,
            kind: entry.kind,
            first_on_line: entry.first_on_line,
            touches: entry.touches,
            after_space: entry.after_space,
        }
    }

    /// Adds a token at the end. The only error is want of memory, also of numbers for texts.
    pub fn push(&mut self, token: Token) -> Result<(), NoMemory>
        ensures { OnOk result (self.new ≡ self.old ++ token ∷ []) }
    {
        let Token {
            text,
            span,
            kind,
            first_on_line,
            touches,
            after_space,
        } = token;
        let text = self.texts.number(kind, text)?;
        self.entries.push(Entry {
            span,
            text,
            kind,
            first_on_line,
            touches,
            after_space,
        })?;
        Ok(())
    }
}

/// How many numbers of kinds there is room for: more than there are kinds.
const KINDS: usize = 128;

/// Texts by their numbers, which contracts see as the list of them.
#[derive(Debug, Drop)]
struct Pool {
    texts: Vec<Text>,
    /// By the number of a kind, the number of the last text that was kept for a token of it.
    latest: [u32; KINDS],
}

impl Model for Pool {
    ghost use Rattle.std.specs.Prelude.{List};
    ghost use Rattle.sw_lex.specs.Bytes.{Text};

    ghost Value = { List Text };

    ghost view = { λ pool. pool.texts.items };
}

impl Pool {
    fn new(alloc: Global) -> Pool
        ensures { result ≡ [] }
    {
        Pool {
            texts: Vec::new(alloc),
            latest: [0; KINDS],
        }
    }

    /// The text of a number.
    fn at(&self, number: u32) -> &Text
        requires { number < length self.now }
        ensures { slice_get self.now number ≡ Some result.now }
    {
        &self.texts[number as usize]
    }

    /// The number of a text of a token: that of the last one of its kind where it is the same, else
    /// that of a new one. It keeps all that are there.
    fn number(&mut self, kind: TokenKind, text: Text) -> Result<u32, NoMemory>
        ensures grown { IsGrown self.old self.new }
        ensures number { IfOk result (λ number. slice_get self.new number ≡ Some text) }
    {
        if let Some(number) = number_of(&self.latest, self.texts.as_slice(), kind, &text) {
            return Ok(number);
        }
        let Ok(number) = u32::try_from(self.texts.len()) else {
            return Err(NoMemory);
        };
        self.texts.push(text)?;
        if let Some(latest) = self.latest.get_mut(kind as usize) {
            *latest = number;
        }
        Ok(number)
    }
}

/// The number of the text that the last token of a kind has, if it is this one.
fn number_of(latest: &[u32], texts: &[Text], kind: TokenKind, text: &Text) -> Option<u32>
    ensures { IfSome result (λ number. slice_get texts.now number ≡ Some text.now) }
{
    let number = *latest.get(kind as usize)?;
    let kept = texts.get(number as usize)?;
    if kept == text { Some(number) } else { None }
}
