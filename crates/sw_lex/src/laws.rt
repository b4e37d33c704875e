//! What holds of the tokens of a source. The law is the contract of a function that does nothing.

ghost use Rattle.sw_lex.specs.declared.token.Token.{Token};
ghost use Rattle.std.specs.Prelude.{List};
ghost use Rattle.sw_lex.specs.Bytes.{Text};
ghost use Rattle.sw_lex.specs.Lexing.{IntegersFit};
ghost use Rattle.sw_lex.specs.Rules.{BreaksNone};
ghost use Rattle.sw_lex.specs.Tokens.{CutsInto};

/// The integers of a source that breaks no rule of tokens are such that literals hold them.
pub fn integers_fit()
    ensures { (source : Text) (tokens : List Token) → CutsInto source tokens → BreaksNone source → IntegersFit tokens }
{}
