// The words of rules and facts, as in a proof file.
use qs_entail::{Certificate, Fact};

fn fact_word(fact: &Fact) -> &'static [u8] {
    match fact {
        Fact::Range(_) => b"range",
        Fact::CostRange(_) => b"range",
        Fact::Apart(_, _) => b"apart",
        Fact::NumIs(_, _) => b"num",
        Fact::NumBounds(_) => b"pos",
        Fact::WrapUnsignedIs(_, _, _) => b"wrapu",
        Fact::WrapSignedIs(_, _, _) => b"wraps",
        Fact::WrapUnsignedBounds(_) => b"boundu",
        Fact::WrapSignedBounds(_) => b"bounds",
        Fact::QuotientBounds(_, _) => b"div",
        Fact::BitsBound(_) => b"bits",
        Fact::BitsHalf(_, _) => b"half",
        Fact::BitsRise(_, _, _) => b"mono",
    }
}

/// The word with which a node begins.
pub fn word_of(certificate: &Certificate) -> &'static [u8] {
    match certificate {
        Certificate::Same => b"same",
        Certificate::Via(_, _, _) => b"via",
        Certificate::Pick(_, _) => b"pick",
        Certificate::All(_) => b"all",
        Certificate::Parts(_) => b"parts",
        Certificate::Assume(_) => b"assume",
        Certificate::DropGuard(_, _) => b"drop",
        Certificate::Split(_, _, _) => b"split",
        Certificate::Contradict(_) => b"absurd",
        Certificate::Arithmetic(_) => b"arith",
        Certificate::ByDefinition(_, _) => b"unfold",
        Certificate::Fact(fact, _) => fact_word(fact),
    }
}
