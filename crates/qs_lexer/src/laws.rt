// Laws of tokens: functions that do nothing, for what their clauses say.
ghost use Rattle.std.specs.Prelude.{◌≤◌, ℕ, List, All, length};
ghost use Rattle.qs_lexer.specs.Laws.{IsInOrder, IsTokenOf, NotBoth, HasOneKind, HasOneList};
ghost use Rattle.qs_lexer.specs.Laws.{HasOnePlace};
ghost use Rattle.qs_lexer.specs.Terminals.{AreAsMany, AreWellFormed};
ghost use Rattle.qs_lexer.specs.Tokens.{EachReading};

/// A text has at most one list of tokens and at most one fault, and never both.
pub fn one_reading()
    ensures one_list { (text : List ℕ) → HasOneList text }
    ensures one_kind { (text : List ℕ) → HasOneKind text }
    ensures one_place { (text : List ℕ) → HasOnePlace text }
    ensures not_both { (text : List ℕ) → NotBoth text }
{}

/// Each token lies in the text and is the longest that can stand there, names are names of the
/// language and texts are text literals; the tokens stand in order, none over another.
pub fn each_token()
    ensures tokens_of { (text : List ℕ) → EachReading text (All (IsTokenOf text)) }
    ensures in_order { (text : List ℕ) → EachReading text (IsInOrder text) }
{}

/// There are as many terminals as tokens, and no more than bytes; each name is none of the
/// keywords, each constant is a value of its type, and each text consists of bytes.
pub fn each_terminal()
    ensures as_many { (text : List ℕ) → AreAsMany text }
    ensures at_most { (text : List ℕ) → EachReading text (λ tokens. length tokens ≤ length text) }
    ensures are_well_formed { (text : List ℕ) → EachReading text (AreWellFormed text) }
{}
