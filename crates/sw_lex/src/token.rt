//! Tokens and their kinds.

ghost use Rattle.std.specs.Prelude.{◌≡◌};
ghost use Rattle.sw_lex.specs.Tables.{same_kind};

use sw_base::{Span, Text};

/// What a token is: a reserved word, a name, a literal or a part of one, a mark, or the end.
///
/// The words `actor`, `distributed`, `nonisolated`, `mutating`, `final` and `get` are names here. The
/// parser knows where they mean more.
#[derive(Clone, Copy, Debug, PartialEq, Eq)]
pub enum TokenKind {
    /// A name that is no reserved word and no lone `_`.
    Name,
    /// A lone `_`.
    Underscore,
    /// A digit, then digits and `_`.
    Integer,
    /// A string with no `\( )`.
    StringWhole,
    /// A string's first piece, up to its first `\(`.
    StringStart,
    /// A piece between two `\( )` of a string.
    StringMiddle,
    /// A string's last piece, from its last `)`.
    StringLast,
    /// `any`
    Any,
    /// `as`
    As,
    /// `async`
    Async,
    /// `await`
    Await,
    /// `break`
    Break,
    /// `case`
    Case,
    /// `catch`
    Catch,
    /// `continue`
    Continue,
    /// `default`
    Default,
    /// `defer`
    Defer,
    /// `do`
    Do,
    /// `else`
    Else,
    /// `enum`
    Enum,
    /// `extension`
    Extension,
    /// `false`
    False,
    /// `fileprivate`
    Fileprivate,
    /// `for`
    For,
    /// `func`
    Func,
    /// `guard`
    Guard,
    /// `if`
    If,
    /// `import`
    Import,
    /// `in`
    In,
    /// `init`
    Init,
    /// `inout`
    Inout,
    /// `internal`
    Internal,
    /// `is`
    Is,
    /// `let`
    Let,
    /// `nil`
    Nil,
    /// `private`
    Private,
    /// `protocol`
    Protocol,
    /// `public`
    Public,
    /// `repeat`
    Repeat,
    /// `return`
    Return,
    /// `self`
    Self_,
    /// `static`
    Static,
    /// `struct`
    Struct,
    /// `super`
    Super,
    /// `switch`
    Switch,
    /// `throw`
    Throw,
    /// `throws`
    Throws,
    /// `true`
    True,
    /// `try`
    Try,
    /// `typealias`
    Typealias,
    /// `var`
    Var,
    /// `where`
    Where,
    /// `while`
    While,
    /// `..<`
    HalfOpenRange,
    /// `...`
    Ellipsis,
    /// `->`
    Arrow,
    /// `==`
    EqualEqual,
    /// `!=`
    NotEqual,
    /// `<=`
    LessEqual,
    /// `>=`
    GreaterEqual,
    /// `&&`
    And,
    /// `||`
    Or,
    /// `??`
    Coalesce,
    /// `+=`
    PlusAssign,
    /// `-=`
    MinusAssign,
    /// `*=`
    StarAssign,
    /// `/=`
    SlashAssign,
    /// `%=`
    PercentAssign,
    /// `(`
    LeftParen,
    /// `)`
    RightParen,
    /// `[`
    LeftBracket,
    /// `]`
    RightBracket,
    /// `{`
    LeftBrace,
    /// `}`
    RightBrace,
    /// `,`
    Comma,
    /// `:`
    Colon,
    /// `;`
    Semicolon,
    /// `.`
    Dot,
    /// `=`
    Assign,
    /// `+`
    Plus,
    /// `-`
    Minus,
    /// `*`
    Star,
    /// `/`
    Slash,
    /// `%`
    Percent,
    /// `<`
    Less,
    /// `>`
    Greater,
    /// `!`
    Bang,
    /// `?`
    Question,
    /// The end of the source.
    End,
}

/// A token, with its place and what of the bytes before it the line rules speak of.
#[derive(Debug, PartialEq, Drop)]
pub struct Token {
    /// What the string piece stands for; of any other token its bytes. The end has none.
    pub text: Text,
    /// The place of its first byte. The end stands one column after the last byte of the source, also
    /// where that byte ends a line, and at 1:1 where there is none.
    pub span: Span,
    pub kind: TokenKind,
    /// No earlier token stands on its line.
    pub first_on_line: bool,
    /// A token stands directly before it, with neither white space nor a comment between.
    pub touches: bool,
    /// White space stands directly before it. A comment is none.
    pub after_space: bool,
}

/// Tells whether two kinds are one.
pub fn same_kind(a: TokenKind, b: TokenKind) -> bool
    ensures { result ≡ same_kind a b }
{
    a == b
}
