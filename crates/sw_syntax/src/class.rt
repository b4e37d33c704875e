//! What a token is to the grammar.

ghost use Rattle.std.specs.Prelude.{◌≡◌};
ghost use Rattle.sw_syntax.specs.Sights.{passes, starts_argument};
ghost use Rattle.sw_syntax.specs.Tests as spec;
ghost use Rattle.sw_syntax.specs.Tables as table;

use sw_lex::{TokenKind, same_kind};

/// What a token is: its kind, and more than that where its text or a neighbour makes a difference.
#[derive(Clone, Copy, Debug, PartialEq, Eq)]
pub enum Class {
    /// Of this kind, with nothing more to tell.
    Is(TokenKind),
    /// The name `actor`.
    Actor,
    /// The name `distributed`.
    Distributed,
    /// The name `nonisolated`.
    Nonisolated,
    /// The name `mutating`.
    Mutating,
    /// The name `final`.
    Final,
    /// The name `get`.
    Get,
    /// The name `get` with `{` after it.
    GetBlock,
    /// `else` with `if` after it.
    ElseIf,
    /// `!` with nothing between it and the token before it.
    TouchingBang,
    /// `?` with nothing between it and the token before it.
    TouchingQuestion,
    /// `?` after white space.
    SpacedQuestion,
    /// `-` with white space or a comment after it.
    LooseMinus,
}

/// What the tests of the grammar look at.
#[derive(Clone, Copy, Debug, PartialEq, Eq)]
pub struct Sight {
    pub class: Class,
    /// No earlier token stands on its line.
    pub is_first: bool,
    /// The next token is `:`.
    pub before_colon: bool,
}

/// A test of a token.
#[derive(Clone, Copy, Debug, PartialEq, Eq)]
pub enum Test {
    /// A token of this kind, with no more to tell.
    Is(TokenKind),
    /// A name.
    Name,
    /// `true` or `false`.
    Bool,
    /// `let` or `var`.
    LetOrVar,
    /// `try` or `await`.
    Effect,
    /// `-` or `!` before an operand.
    Sign,
    /// `(` of a call.
    Call,
    /// `[` of an index.
    Index,
    /// `!` after an expression.
    Force,
    /// Any of what may follow a primary.
    PostfixForm,
    /// `?` of a type or of `try?`.
    JoinedQuestion,
    /// `?` of a ternary.
    Ternary,
    /// A binary operator of this strength, from 0 to 5.
    Binary(u8),
    /// A label of an argument.
    Label,
    /// Any token but a label of an argument.
    Unlabelled,
    /// What a literal begins with.
    Literal,
    /// What an operand of a binary operator begins with.
    Operand,
    /// What an expression begins with.
    Expr,
    /// What an argument begins with.
    Argument,
}

impl Class {
    pub(crate) fn is(self, kind: TokenKind) -> bool
        ensures { result ≡ spec.is_of kind self }
    {
        match self {
            Class::Is(own) => same_kind(own, kind),
            _ => false,
        }
    }

    pub(crate) fn is_name(self) -> bool
        ensures { result ≡ spec.is_name_class self }
    {
        match self {
            Class::Is(kind) => same_kind(kind, TokenKind::Name),
            Class::Actor
            | Class::Distributed
            | Class::Nonisolated
            | Class::Mutating
            | Class::Final
            | Class::Get
            | Class::GetBlock => true,
            _ => false,
        }
    }

    pub(crate) fn is_reserved(self) -> bool
        ensures { result ≡ spec.is_reserved_class self }
    {
        match self {
            Class::Is(kind) => kind.is_reserved(),
            Class::ElseIf => true,
            _ => false,
        }
    }

    fn is_bang(self) -> bool
        ensures { result ≡ spec.is_bang_class self }
    {
        match self {
            Class::Is(kind) => same_kind(kind, TokenKind::Bang),
            Class::TouchingBang => true,
            _ => false,
        }
    }

    fn is_touching_bang(self) -> bool
        ensures { result ≡ spec.is_touching_bang_class self }
    {
        match self {
            Class::TouchingBang => true,
            _ => false,
        }
    }

    fn is_minus(self) -> bool
        ensures { result ≡ spec.is_minus_class self }
    {
        match self {
            Class::Is(kind) => same_kind(kind, TokenKind::Minus),
            Class::LooseMinus => true,
            _ => false,
        }
    }

    pub(crate) fn is_loose_minus(self) -> bool
        ensures { result ≡ spec.is_loose_minus_class self }
    {
        match self {
            Class::LooseMinus => true,
            _ => false,
        }
    }

    fn is_touching_question(self) -> bool
        ensures { result ≡ spec.is_touching_question_class self }
    {
        match self {
            Class::TouchingQuestion => true,
            _ => false,
        }
    }

    fn is_spaced_question(self) -> bool
        ensures { result ≡ spec.is_spaced_question_class self }
    {
        match self {
            Class::SpacedQuestion => true,
            _ => false,
        }
    }
}

impl Sight {
    pub(crate) fn is(self, kind: TokenKind) -> bool
        ensures { result ≡ spec.is kind self }
    {
        self.class.is(kind)
    }

    fn is_bool(self) -> bool
        ensures { result ≡ spec.is_bool self }
    {
        self.is(TokenKind::True) || self.is(TokenKind::False)
    }

    fn is_effect(self) -> bool
        ensures { result ≡ spec.is_effect self }
    {
        self.is(TokenKind::Try) || self.is(TokenKind::Await)
    }

    fn is_sign(self) -> bool
        ensures { result ≡ spec.is_sign self }
    {
        self.class.is_minus() || self.class.is_bang()
    }

    fn is_call(self) -> bool
        ensures { result ≡ spec.is_call self }
    {
        self.is(TokenKind::LeftParen) && !self.is_first
    }

    fn is_index(self) -> bool
        ensures { result ≡ spec.is_index self }
    {
        self.is(TokenKind::LeftBracket) && !self.is_first
    }

    fn is_force(self) -> bool
        ensures { result ≡ spec.is_force self }
    {
        self.class.is_touching_bang() && !self.is_first
    }

    fn is_form(self) -> bool
        ensures { result ≡ table.is_form self }
    {
        self.is(TokenKind::Dot) || self.is_call() || self.is_index() || self.is_force()
    }

    fn is_binary_minus(self) -> bool
        ensures { result ≡ spec.is_binary_minus self }
    {
        self.class.is_minus() && (!self.is_first || self.class.is_loose_minus())
    }

    fn is_comparison(self) -> bool
        ensures { result ≡ spec.is_comparison self }
    {
        self.is(TokenKind::EqualEqual)
            || self.is(TokenKind::NotEqual)
            || self.is(TokenKind::Less)
            || self.is(TokenKind::LessEqual)
            || self.is(TokenKind::Greater)
            || self.is(TokenKind::GreaterEqual)
    }

    fn is_factor_mark(self) -> bool
        ensures { result ≡ spec.is_binary 5 self }
    {
        self.is(TokenKind::Star) || self.is(TokenKind::Slash) || self.is(TokenKind::Percent)
    }

    fn is_binary(self, strength: u8) -> bool
        ensures { result ≡ spec.is_binary strength self }
    {
        match strength {
            0 => self.is(TokenKind::Or),
            1 => self.is(TokenKind::And),
            2 => self.is_comparison(),
            3 => self.is(TokenKind::Coalesce),
            4 => self.is(TokenKind::Plus) || self.is_binary_minus(),
            _ => self.is_factor_mark(),
        }
    }

    pub(crate) fn starts_literal(self) -> bool
        ensures { result ≡ spec.starts_literal self }
    {
        self.is(TokenKind::Integer)
            || self.is_bool()
            || self.is(TokenKind::StringWhole)
            || self.is(TokenKind::StringStart)
    }

    fn starts_primary(self) -> bool
        ensures { result ≡ spec.starts_primary self }
    {
        self.starts_literal()
            || self.is(TokenKind::Nil)
            || self.class.is_name()
            || self.is(TokenKind::Self_)
            || self.is(TokenKind::Dot)
            || self.is(TokenKind::LeftParen)
            || self.is(TokenKind::LeftBracket)
    }

    fn starts_operand(self) -> bool
        ensures { result ≡ spec.starts_operand self }
    {
        self.is_sign() || self.starts_primary()
    }

    pub(crate) fn starts_expr(self) -> bool
        ensures { result ≡ spec.starts_expr self }
    {
        self.is(TokenKind::Try) || self.is(TokenKind::Await) || self.starts_operand()
    }

    fn starts_argument(self) -> bool
        ensures { result ≡ starts_argument self }
    {
        self.is_label() || self.starts_expr()
    }

    pub(crate) fn is_let_or_var(self) -> bool
        ensures { result ≡ spec.is_let_or_var self }
    {
        self.is(TokenKind::Let) || self.is(TokenKind::Var)
    }

    fn is_label(self) -> bool
        ensures { result ≡ spec.is_label self }
    {
        self.class.is_name() && self.before_colon
            || self.class.is_reserved() && (self.before_colon || !self.starts_expr())
    }

    /// Tells whether the token that was seen passes the test.
    pub fn passes(self, test: Test) -> bool
        ensures { result ≡ passes test self }
    {
        match test {
            Test::Is(kind) => self.is(kind),
            Test::Name => self.class.is_name(),
            Test::Bool => self.is_bool(),
            Test::LetOrVar => self.is_let_or_var(),
            Test::Effect => self.is_effect(),
            Test::Sign => self.is_sign(),
            Test::Call => self.is_call(),
            Test::Index => self.is_index(),
            Test::Force => self.is_force(),
            Test::PostfixForm => self.is_form(),
            Test::JoinedQuestion => self.class.is_touching_question(),
            Test::Ternary => self.class.is_spaced_question(),
            Test::Binary(strength) => self.is_binary(strength),
            Test::Label => self.is_label(),
            Test::Unlabelled => !self.is_label(),
            Test::Literal => self.starts_literal(),
            Test::Operand => self.starts_operand(),
            Test::Expr => self.starts_expr(),
            Test::Argument => self.starts_argument(),
        }
    }
}
