// The heads of certificates.
ghost use Rattle.std.specs.Prelude.{◌≡◌};
ghost use Rattle.qs_prooftext.specs.RuleWords as spec;
ghost use Rattle.qs_prooftext_meaning.specs.Settings.{look_up};

/// The head of a certificate that is no fact.
#[derive(Clone, Copy)]
pub enum Rule {
    Same,
    Via,
    Pick,
    All,
    Parts,
    Assume,
    Drop,
    Split,
    Contradict,
    Arithmetic,
    ByDefinition,
}

/// The head of a fact.
#[derive(Clone, Copy)]
pub enum FactWord {
    Range,
    Apart,
    NumIs,
    NumBounds,
    WrapUnsignedIs,
    WrapSignedIs,
    WrapUnsignedBounds,
    WrapSignedBounds,
    QuotientBounds,
    BitsBound,
    BitsHalf,
    BitsRise,
}

/// The rule that is written so.
pub fn rule_word(word: &[u8]) -> Option<Rule>
    ensures { result ≡ look_up word.now spec.rule_words }
{
    match word {
        b"same" => Some(Rule::Same),
        b"via" => Some(Rule::Via),
        b"pick" => Some(Rule::Pick),
        b"all" => Some(Rule::All),
        b"parts" => Some(Rule::Parts),
        b"assume" => Some(Rule::Assume),
        b"drop" => Some(Rule::Drop),
        b"split" => Some(Rule::Split),
        b"absurd" => Some(Rule::Contradict),
        b"arith" => Some(Rule::Arithmetic),
        b"unfold" => Some(Rule::ByDefinition),
        _ => None,
    }
}

/// The fact that is written so.
pub fn fact_word(word: &[u8]) -> Option<FactWord>
    ensures { result ≡ look_up word.now spec.fact_words }
{
    match word {
        b"range" => Some(FactWord::Range),
        b"apart" => Some(FactWord::Apart),
        b"num" => Some(FactWord::NumIs),
        b"pos" => Some(FactWord::NumBounds),
        b"wrapu" => Some(FactWord::WrapUnsignedIs),
        b"wraps" => Some(FactWord::WrapSignedIs),
        b"boundu" => Some(FactWord::WrapUnsignedBounds),
        b"bounds" => Some(FactWord::WrapSignedBounds),
        b"div" => Some(FactWord::QuotientBounds),
        b"bits" => Some(FactWord::BitsBound),
        b"half" => Some(FactWord::BitsHalf),
        b"mono" => Some(FactWord::BitsRise),
        _ => None,
    }
}

/// Whether a list with this head may have so many other parts.
pub fn rule_takes(rule: Rule, count: usize) -> bool
    ensures { result ≡ spec.rule_takes rule count }
{
    match rule {
        Rule::Same => count == 0,
        Rule::Via => count == 3,
        Rule::Pick => count == 2,
        Rule::All => true,
        Rule::Parts => true,
        Rule::Assume => count == 1,
        Rule::Drop => count == 2,
        Rule::Split => count == 3,
        Rule::Contradict => count == 1,
        Rule::Arithmetic => count == 1,
        Rule::ByDefinition => count == 2,
    }
}

/// How many of its parts are no certificates; they stand first.
pub fn rule_leaves(rule: Rule) -> usize
    ensures { result ≡ spec.rule_leaves rule }
{
    match rule {
        Rule::Same => 0,
        Rule::Via => 1,
        Rule::Pick => 1,
        Rule::All => 0,
        Rule::Parts => 0,
        Rule::Assume => 0,
        Rule::Drop => 0,
        Rule::Split => 1,
        Rule::Contradict => 1,
        Rule::Arithmetic => 1,
        Rule::ByDefinition => 1,
    }
}

/// How many parts stand before the certificate behind a fact.
pub fn fact_leaves(fact: FactWord) -> usize
    ensures { result ≡ spec.fact_leaves fact }
{
    match fact {
        FactWord::Range => 1,
        FactWord::Apart => 2,
        FactWord::NumIs => 2,
        FactWord::NumBounds => 1,
        FactWord::WrapUnsignedIs => 3,
        FactWord::WrapSignedIs => 3,
        FactWord::WrapUnsignedBounds => 1,
        FactWord::WrapSignedBounds => 1,
        FactWord::QuotientBounds => 2,
        FactWord::BitsBound => 1,
        FactWord::BitsHalf => 2,
        FactWord::BitsRise => 3,
    }
}
