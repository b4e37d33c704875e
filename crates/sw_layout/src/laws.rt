//! What holds of words and of tokens. Each law is the contract of a function that does nothing.

ghost use Rattle.std.specs.Prelude.{◌≡◌, ◌≤◌, List, length, map};
ghost use Rattle.sw_base.specs.Limits.{longest_source};
ghost use Rattle.sw_lex.specs.declared.token.Token.{Token};
ghost use Rattle.sw_lex.specs.Bytes.{Text};
ghost use Rattle.sw_lex.specs.Rules.{BreaksNone};
ghost use Rattle.sw_lex.specs.Tokens.{CutsInto};
ghost use Rattle.sw_layout.specs.Apart.{AreApart};
ghost use Rattle.sw_layout.specs.Lexed.{AreFit};
ghost use Rattle.sw_layout.specs.Layouts.{AreIntegersFit, IsLaidOut};
ghost use Rattle.sw_layout.specs.Words.{Word, page_text, page_tokens, unplaced};

/// The text of a layout is cut into its words again.
pub fn cut_again()
    ensures { (words : List Word) → IsLaidOut words → (tokens : List Token) × CutsInto (page_text words) tokens × (map unplaced tokens ≡ page_tokens words) }
{}

/// The text of a layout breaks no rule of tokens, where literals hold its integers and it is no longer than a source may
/// be.
pub fn unbroken()
    ensures { (words : List Word) → IsLaidOut words → AreIntegersFit words → length (page_text words) ≤ longest_source → BreaksNone (page_text words) }
{}

/// The text of each token of a source is one of its kind, where the source breaks no rule of tokens.
pub fn lexed_fit()
    ensures { (source : Text) (tokens : List Token) → CutsInto source tokens → BreaksNone source → AreFit tokens }
{}

/// No `?` of a source touches another: the two would be one token.
pub fn questions_apart()
    ensures { (source : Text) (tokens : List Token) → CutsInto source tokens → AreApart tokens }
{}
