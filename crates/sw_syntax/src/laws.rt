//! What holds of the grammar as a whole. Each law is the contract of a function that does nothing.

ghost use Rattle.std.specs.Prelude.{◌≡◌, Bool, List};
ghost use Rattle.sw_grammar.specs.Grammar.{Budget as GrammarBudget};
ghost use Rattle.sw_syntax.specs.Meaning.{Spells};
ghost use Rattle.sw_syntax.specs.Answering.{Answers, read_in};
ghost use Rattle.sw_syntax.specs.Nonterminals.{Sort, Nonterminal};
ghost use Rattle.sw_syntax.specs.Tokens.{Sighted};

/// No tokens spell two trees of one nonterminal, in whatever budgets.
pub fn one_tree()
    ensures { (lenient : Bool) (s : Nonterminal) (budget other : GrammarBudget) (run : List Sighted) (x y : Sort s) → Spells lenient s budget run x → Spells lenient s other run y → x ≡ y }
{}

/// What the tokens are read as is what the grammar says of them: a value is that of the longest run that begins
/// a sentence, and a refusal is of the token with which they begin none.
pub fn readings_answer()
    ensures { (lenient : Bool) (s : Nonterminal) (budget : GrammarBudget) (tokens : List Sighted) → Answers lenient s budget tokens (read_in lenient s budget tokens) }
{}
