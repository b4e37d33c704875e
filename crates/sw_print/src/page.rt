//! A text that grows by words.

ghost use Rattle.std.specs.Prelude.{◌≡◌, [], ◌∷◌, ◌++◌, IfOk, OnOk};
ghost use Rattle.sw_layout.specs.Words.{gap_text, escape, escapes, spelling, plain, words_text};
ghost use Rattle.sw_print.specs.Expressions.{word};

use std::alloc::Global;
use std::marker::Model;
use sw_base::{NoMemory, Text};
use sw_layout::Gap;
use sw_lex::TokenKind;

/// A text that grows by words, which contracts see as its bytes.
#[derive(Debug, Drop)]
pub struct Page {
    alloc: Global,
    text: Text,
}

impl Model for Page {
    ghost use Rattle.std.specs.Prelude.{List, ℕ};

    ghost Value = { List ℕ };

    ghost view = { λ page. page.text };
}

impl Page {
    /// An empty page.
    pub fn new(alloc: Global) -> Result<Page, NoMemory>
        ensures { IfOk result (λ page. page ≡ []) }
    {
        let text = Text::from_bytes(alloc, b"")?;
        Ok(Page { alloc, text })
    }

    /// What stands on the page.
    pub fn into_text(self) -> Text
        ensures { result ≡ self }
    {
        let Page { alloc: _, text } = self;
        text
    }

    /// The allocator that the page grows by.
    pub fn allocator(&self) -> Global {
        self.alloc
    }

    /// Writes bytes as they are.
    pub fn bytes(&mut self, bytes: &[u8]) -> Result<(), NoMemory>
        ensures { OnOk result (self.new ≡ self.old ++ bytes.now) }
    {
        self.text.push_all(bytes)
    }

    /// Writes what stands before a word.
    fn gap(&mut self, before: Gap) -> Result<(), NoMemory>
        ensures { OnOk result (self.new ≡ self.old ++ gap_text before) }
    {
        match before {
            Gap::Start | Gap::Joined => Ok(()),
            Gap::Line => self.bytes(b"\n"),
            Gap::Space => self.bytes(b" "),
        }
    }

    /// Writes a byte of a string, by its escape where it has one.
    fn escape(&mut self, byte: u8) -> Result<(), NoMemory>
        ensures { OnOk result (self.new ≡ self.old ++ escape byte) }
    {
        match byte {
            b'\n' => self.bytes(b"\\n"),
            b'\r' => self.bytes(b"\\r"),
            b'\t' => self.bytes(b"\\t"),
            b'\0' => self.bytes(b"\\0"),
            b'"' | b'\\' => self.bytes(&[b'\\', byte]),
            _ => self.bytes(&[byte]),
        }
    }

    /// Writes the bytes of a string.
    fn escapes(&mut self, text: &[u8]) -> Result<(), NoMemory>
        ensures { OnOk result (self.new ≡ self.old ++ escapes text.now) }
    {
        for byte in text {
            self.escape(*byte)?;
        }
        Ok(())
    }

    /// Writes a piece of a string between what opens and what closes it.
    fn piece(&mut self, before: &[u8], text: &[u8], following: &[u8]) -> Result<(), NoMemory>
        ensures { OnOk result (self.new ≡ self.old ++ (before.now ++ (escapes text.now ++ following.now))) }
    {
        self.bytes(before)?;
        self.escapes(text)?;
        self.bytes(following)
    }

    /// Writes a word without what stands before it.
    fn spelling(&mut self, kind: TokenKind, text: &[u8]) -> Result<(), NoMemory>
        ensures { OnOk result (self.new ≡ self.old ++ spelling kind text.now) }
    {
        match kind {
            TokenKind::StringWhole => self.piece(b"\"", text, b"\""),
            TokenKind::StringStart => self.piece(b"\"", text, b"\\("),
            TokenKind::StringMiddle => self.piece(b")", text, b"\\("),
            TokenKind::StringLast => self.piece(b")", text, b"\""),
            _ => self.bytes(text),
        }
    }

    /// Writes a word of this kind, with this text.
    pub fn word(&mut self, kind: TokenKind, text: &[u8], before: Gap) -> Result<(), NoMemory>
        ensures { OnOk result (self.new ≡ self.old ++ words_text (word kind text.now before ∷ [])) }
    {
        self.gap(before)?;
        self.spelling(kind, text)
    }

    /// Writes a reserved word, a lone `_` or a mark.
    pub fn plain(&mut self, kind: TokenKind, before: Gap) -> Result<(), NoMemory>
        ensures { OnOk result (self.new ≡ self.old ++ words_text (plain kind before ∷ [])) }
    {
        self.word(kind, kind.spelling(), before)
    }
}
