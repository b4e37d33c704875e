//! Each spelling against what the lexer makes of it: a contract says which spelling a kind has, and none that the kind
//! was meant.

use std::alloc::Global;
use std::test::Fail;
use sw_lex::{TokenKind, lex, same_kind};

/// Reserved words, a lone `_`, and marks.
const SPELT: [TokenKind; 82] = [
    TokenKind::Underscore,
    TokenKind::Any,
    TokenKind::As,
    TokenKind::Async,
    TokenKind::Await,
    TokenKind::Break,
    TokenKind::Case,
    TokenKind::Catch,
    TokenKind::Continue,
    TokenKind::Default,
    TokenKind::Defer,
    TokenKind::Do,
    TokenKind::Else,
    TokenKind::Enum,
    TokenKind::Extension,
    TokenKind::False,
    TokenKind::Fileprivate,
    TokenKind::For,
    TokenKind::Func,
    TokenKind::Guard,
    TokenKind::If,
    TokenKind::Import,
    TokenKind::In,
    TokenKind::Init,
    TokenKind::Inout,
    TokenKind::Internal,
    TokenKind::Is,
    TokenKind::Let,
    TokenKind::Nil,
    TokenKind::Private,
    TokenKind::Protocol,
    TokenKind::Public,
    TokenKind::Repeat,
    TokenKind::Return,
    TokenKind::Self_,
    TokenKind::Static,
    TokenKind::Struct,
    TokenKind::Super,
    TokenKind::Switch,
    TokenKind::Throw,
    TokenKind::Throws,
    TokenKind::True,
    TokenKind::Try,
    TokenKind::Typealias,
    TokenKind::Var,
    TokenKind::Where,
    TokenKind::While,
    TokenKind::HalfOpenRange,
    TokenKind::Ellipsis,
    TokenKind::Arrow,
    TokenKind::EqualEqual,
    TokenKind::NotEqual,
    TokenKind::LessEqual,
    TokenKind::GreaterEqual,
    TokenKind::And,
    TokenKind::Or,
    TokenKind::Coalesce,
    TokenKind::PlusAssign,
    TokenKind::MinusAssign,
    TokenKind::StarAssign,
    TokenKind::SlashAssign,
    TokenKind::PercentAssign,
    TokenKind::LeftParen,
    TokenKind::RightParen,
    TokenKind::LeftBracket,
    TokenKind::RightBracket,
    TokenKind::LeftBrace,
    TokenKind::RightBrace,
    TokenKind::Comma,
    TokenKind::Colon,
    TokenKind::Semicolon,
    TokenKind::Dot,
    TokenKind::Assign,
    TokenKind::Plus,
    TokenKind::Minus,
    TokenKind::Star,
    TokenKind::Slash,
    TokenKind::Percent,
    TokenKind::Less,
    TokenKind::Greater,
    TokenKind::Bang,
    TokenKind::Question,
];

/// Kinds with no spelling of their own.
const OTHERS: [TokenKind; 7] = [
    TokenKind::Name,
    TokenKind::Integer,
    TokenKind::StringWhole,
    TokenKind::StringStart,
    TokenKind::StringMiddle,
    TokenKind::StringLast,
    TokenKind::End,
];

/// Tells whether the lexer makes one token of this kind of its spelling.
fn is_one_token(alloc: Global, kind: TokenKind) -> bool {
    match lex(alloc, kind.spelling()) {
        Ok(tokens) => match (tokens.get(0), tokens.get(1), tokens.get(2)) {
            (Some(token), Some(end), None) => same_kind(token.kind, kind)
                && end.kind == TokenKind::End,
            _ => false,
        },
        Err(_) => false,
    }
}

#[test]
fn each_spelling_is_one_token(rt: HostRuntime) -> Result<(), Fail> {
    let mut wrong = None;
    for kind in SPELT {
        if !is_one_token(rt.alloc(), kind) {
            wrong = Some(kind);
        }
    }
    assert_eq!(rt; wrong, None);
    Ok(())
}

#[test]
fn other_kinds_have_no_spelling(rt: HostRuntime) -> Result<(), Fail> {
    for kind in OTHERS {
        assert!(rt; kind.spelling().is_empty());
    }
    Ok(())
}
