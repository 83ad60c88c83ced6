// What may stand in an assertion, and the words of its lists.
ghost use Rattle.std.specs.Prelude.{◌≡◌};
ghost use Rattle.qs_prooftext_assertions.specs.AssertionWords.{assertion_words, condition_words};
ghost use Rattle.qs_prooftext_assertions.specs.AssertionWords.{definition_words, term_words};
ghost use Rattle.qs_prooftext_meaning.specs.Settings.{look_up};

use qs_assert::Node;

/// What may stand at a place of an assertion. Of some the place of their list is known, at which
/// they have no meaning.
#[derive(Clone, Copy)]
pub enum Sort {
    /// A term.
    Term,
    /// A condition.
    Condition,
    /// An assertion.
    Assertion,
    /// The body of a definition.
    Definition,
    /// A number of at least 1, of which the node of its list knows.
    Divisor,
    /// A variable whose value at the entry is meant.
    OldVariable(u32),
    /// A function.
    Function(u32),
    /// A name with a definition.
    KnownName(u32),
    /// Any name.
    Name,
}

/// The parts of a list behind its head.
#[derive(Clone, Copy)]
pub enum Parts {
    /// None.
    Zero,
    /// One.
    One(Sort),
    /// Two.
    Two(Sort, Sort),
    /// Three.
    Three(Sort, Sort, Sort),
    /// Two or more of one sort.
    Many(Sort),
}

/// What a list makes before its parts, and these.
#[derive(Drop)]
pub struct Row {
    /// The node of the list; its part makes one where there is none.
    pub node: Option<Node>,
    /// Its parts.
    pub parts: Parts,
}

/// The head of a term.
#[derive(Clone, Copy)]
pub enum TermWord {
    Old,
    Add,
    Sub,
    Mul,
    Div,
    WrapUnsigned,
    WrapSigned,
    Bits,
    Returned,
}

/// The head of a condition.
#[derive(Clone, Copy)]
pub enum ConditionWord {
    Le,
    Lt,
    Eq,
    Ne,
    Not,
    And,
    Or,
}

/// The head of an assertion.
#[derive(Clone, Copy)]
pub enum AssertionWord {
    Infinity,
    Cost,
    Num,
    Total,
    Greatest,
    Product,
    Guard,
    If,
    Named,
}

/// The head that is written so.
pub fn term_word(word: &[u8]) -> Option<TermWord>
    ensures { result ≡ look_up word.now term_words }
{
    match word {
        b"old" => Some(TermWord::Old),
        b"add" => Some(TermWord::Add),
        b"sub" => Some(TermWord::Sub),
        b"mul" => Some(TermWord::Mul),
        b"div" => Some(TermWord::Div),
        b"wrapu" => Some(TermWord::WrapUnsigned),
        b"wraps" => Some(TermWord::WrapSigned),
        b"bits" => Some(TermWord::Bits),
        b"result" => Some(TermWord::Returned),
        _ => None,
    }
}

/// The head that is written so.
pub fn condition_word(word: &[u8]) -> Option<ConditionWord>
    ensures { result ≡ look_up word.now condition_words }
{
    match word {
        b"le" => Some(ConditionWord::Le),
        b"lt" => Some(ConditionWord::Lt),
        b"eq" => Some(ConditionWord::Eq),
        b"ne" => Some(ConditionWord::Ne),
        b"not" => Some(ConditionWord::Not),
        b"and" => Some(ConditionWord::And),
        b"or" => Some(ConditionWord::Or),
        _ => None,
    }
}

/// The head that is written so.
pub fn assertion_word(word: &[u8]) -> Option<AssertionWord>
    ensures { result ≡ look_up word.now assertion_words }
{
    match word {
        b"inf" => Some(AssertionWord::Infinity),
        b"cost" => Some(AssertionWord::Cost),
        b"num" => Some(AssertionWord::Num),
        b"add" => Some(AssertionWord::Total),
        b"max" => Some(AssertionWord::Greatest),
        b"mul" => Some(AssertionWord::Product),
        b"guard" => Some(AssertionWord::Guard),
        b"if" => Some(AssertionWord::If),
        b"name" => Some(AssertionWord::Named),
        _ => None,
    }
}

/// The head, in the body of a definition, that is written so.
pub fn definition_word(word: &[u8]) -> Option<AssertionWord>
    ensures { result ≡ look_up word.now definition_words }
{
    match word {
        b"cost" => Some(AssertionWord::Cost),
        b"add" => Some(AssertionWord::Total),
        b"max" => Some(AssertionWord::Greatest),
        b"mul" => Some(AssertionWord::Product),
        b"name" => Some(AssertionWord::Named),
        _ => None,
    }
}
