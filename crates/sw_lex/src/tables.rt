//! The reserved words and the marks: the one table of their spellings.

ghost use Rattle.std.specs.Prelude.{◌≡◌, ◌≤◌, length, map, option_copied, true};
ghost use Rattle.sw_lex.specs.Tables.{is_prefix_of, fixed, is_reserved_kind, is_same_text, kind_in, kind_of_word};
ghost use Rattle.sw_lex.specs.Matching.{IsTable, IsWithin, first_mark, mark, text_in};

use crate::lexemes::Lexeme;
use crate::token::{TokenKind, same_kind};

const WORDS: [(&[u8], TokenKind); 47] = [
    (b"_", TokenKind::Underscore),
    (b"any", TokenKind::Any),
    (b"as", TokenKind::As),
    (b"async", TokenKind::Async),
    (b"await", TokenKind::Await),
    (b"break", TokenKind::Break),
    (b"case", TokenKind::Case),
    (b"catch", TokenKind::Catch),
    (b"continue", TokenKind::Continue),
    (b"default", TokenKind::Default),
    (b"defer", TokenKind::Defer),
    (b"do", TokenKind::Do),
    (b"else", TokenKind::Else),
    (b"enum", TokenKind::Enum),
    (b"extension", TokenKind::Extension),
    (b"false", TokenKind::False),
    (b"fileprivate", TokenKind::Fileprivate),
    (b"for", TokenKind::For),
    (b"func", TokenKind::Func),
    (b"guard", TokenKind::Guard),
    (b"if", TokenKind::If),
    (b"import", TokenKind::Import),
    (b"in", TokenKind::In),
    (b"init", TokenKind::Init),
    (b"inout", TokenKind::Inout),
    (b"internal", TokenKind::Internal),
    (b"is", TokenKind::Is),
    (b"let", TokenKind::Let),
    (b"nil", TokenKind::Nil),
    (b"private", TokenKind::Private),
    (b"protocol", TokenKind::Protocol),
    (b"public", TokenKind::Public),
    (b"repeat", TokenKind::Repeat),
    (b"return", TokenKind::Return),
    (b"self", TokenKind::Self_),
    (b"static", TokenKind::Static),
    (b"struct", TokenKind::Struct),
    (b"super", TokenKind::Super),
    (b"switch", TokenKind::Switch),
    (b"throw", TokenKind::Throw),
    (b"throws", TokenKind::Throws),
    (b"true", TokenKind::True),
    (b"try", TokenKind::Try),
    (b"typealias", TokenKind::Typealias),
    (b"var", TokenKind::Var),
    (b"where", TokenKind::Where),
    (b"while", TokenKind::While),
];

/// The longest first.
const MARKS: [(&[u8], TokenKind); 35] = [
    (b"..<", TokenKind::HalfOpenRange),
    (b"...", TokenKind::Ellipsis),
    (b"->", TokenKind::Arrow),
    (b"==", TokenKind::EqualEqual),
    (b"!=", TokenKind::NotEqual),
    (b"<=", TokenKind::LessEqual),
    (b">=", TokenKind::GreaterEqual),
    (b"&&", TokenKind::And),
    (b"||", TokenKind::Or),
    (b"??", TokenKind::Coalesce),
    (b"+=", TokenKind::PlusAssign),
    (b"-=", TokenKind::MinusAssign),
    (b"*=", TokenKind::StarAssign),
    (b"/=", TokenKind::SlashAssign),
    (b"%=", TokenKind::PercentAssign),
    (b"(", TokenKind::LeftParen),
    (b")", TokenKind::RightParen),
    (b"[", TokenKind::LeftBracket),
    (b"]", TokenKind::RightBracket),
    (b"{", TokenKind::LeftBrace),
    (b"}", TokenKind::RightBrace),
    (b",", TokenKind::Comma),
    (b":", TokenKind::Colon),
    (b";", TokenKind::Semicolon),
    (b".", TokenKind::Dot),
    (b"=", TokenKind::Assign),
    (b"+", TokenKind::Plus),
    (b"-", TokenKind::Minus),
    (b"*", TokenKind::Star),
    (b"/", TokenKind::Slash),
    (b"%", TokenKind::Percent),
    (b"<", TokenKind::Less),
    (b">", TokenKind::Greater),
    (b"!", TokenKind::Bang),
    (b"?", TokenKind::Question),
];

fn is_same_text(a: &[u8], b: &[u8]) -> bool
    ensures { result ≡ is_same_text a.now b.now }
{
    a == b
}

fn kind_in(mut table: &[(&[u8], TokenKind)], text: &[u8]) -> TokenKind
    ensures { result ≡ kind_in (map (λ x. (x.0.now, x.1)) table.entry.now) text.now }
{
    while let [entry, rest @ ..] = table {
        if is_same_text(text, entry.0) {
            return entry.1;
        }
        table = rest;
    }
    TokenKind::Name
}

/// The kind of a text that is formed as a name.
pub fn kind_of_word(text: &[u8]) -> TokenKind
    ensures { result ≡ kind_of_word text.now }
{
    kind_in(&WORDS, text)
}

fn is_prefix_of(mark: &[u8], bytes: &[u8]) -> bool
    ensures value { result ≡ is_prefix_of mark.now bytes.now }
    ensures within { result ≡ true → length mark.now ≤ length bytes.now }
{
    mark.len() <= bytes.len() && is_same_text(&bytes[..mark.len()], mark)
}

fn first_mark(mut table: &[(&[u8], TokenKind)], bytes: &[u8]) -> Lexeme
    requires { IsTable (map (λ x. (x.0.now, x.1)) table.now) }
    ensures value { result ≡ first_mark (map (λ x. (x.0.now, x.1)) table.entry.now) bytes.now }
    ensures within { IsWithin result (length bytes.now) }
{
    while let [entry, rest @ ..] = table {
        if is_prefix_of(entry.0, bytes) {
            return Lexeme::Token(entry.1, entry.0.len());
        }
        table = rest;
    }
    Lexeme::Malformed
}

/// The longest mark that begins a text, if one does.
pub fn mark(bytes: &[u8]) -> Lexeme
    ensures value { result ≡ mark bytes.now }
    ensures within { IsWithin result (length bytes.now) }
{
    first_mark(&MARKS, bytes)
}

/// The text of a kind in a table, if it stands there.
fn text_in(
    mut table: &'static [(&'static [u8], TokenKind)],
    kind: TokenKind,
) -> Option<&'static [u8]>
    ensures { option_copied result ≡ text_in (map (λ x. (x.0.now, x.1)) table.entry.now) kind }
{
    while let [entry, rest @ ..] = table {
        if same_kind(entry.1, kind) {
            return Some(entry.0);
        }
        table = rest;
    }
    None
}

impl TokenKind {
    /// How a reserved word, a lone `_` or a mark is spelt. Other kinds have no spelling of their own, and
    /// give no bytes.
    pub fn spelling(self) -> &'static [u8]
        ensures { result.now ≡ fixed self }
    {
        match text_in(&WORDS, self) {
            Some(word) => word,
            None => match text_in(&MARKS, self) {
                Some(mark) => mark,
                None => b"",
            },
        }
    }

    /// Tells whether it is the kind of a reserved word.
    pub fn is_reserved(self) -> bool
        ensures { result ≡ is_reserved_kind self }
    {
        match text_in(&WORDS, self) {
            Some(_) => !same_kind(self, TokenKind::Underscore),
            None => false,
        }
    }
}
