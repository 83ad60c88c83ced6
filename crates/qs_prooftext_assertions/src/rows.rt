// The rows of lists in assertions.
ghost use Rattle.std.specs.Prelude.{◌≡◌, None};
ghost use Rattle.qs_prooftext_assertions.specs.AssertionRows as spec;
ghost use Rattle.qs_prooftext_assertions.specs.Flattening as flattening;

use crate::sorts::{
    AssertionWord, ConditionWord, Parts, Row, Sort, TermWord, assertion_word, condition_word,
    definition_word, term_word,
};
use qs_assert::{AssertionNode, CondNode, Node, TermNode, Var};

fn row(node: Node, parts: Parts) -> Option<Row>
    ensures { result ≡ spec.row node parts }
{
    Some(Row {
        node: Some(node),
        parts,
    })
}

fn term(node: TermNode, parts: Parts) -> Option<Row>
    ensures { result ≡ spec.row (Node.Term node) parts }
{
    row(Node::Term(node), parts)
}

fn condition(node: CondNode, parts: Parts) -> Option<Row>
    ensures { result ≡ spec.row (Node.Condition node) parts }
{
    row(Node::Condition(node), parts)
}

fn assertion(node: AssertionNode, parts: Parts) -> Option<Row>
    ensures { result ≡ spec.row (Node.Assertion node) parts }
{
    row(Node::Assertion(node), parts)
}

fn bare(part: Sort) -> Option<Row>
    ensures { result ≡ spec.bare_row part }
{
    Some(Row {
        node: None,
        parts: Parts::One(part),
    })
}

fn variable(result_variable: Option<Var>) -> Option<Row>
    ensures { result ≡ spec.variable_row result_variable }
{
    term(TermNode::Variable(result_variable?), Parts::Zero)
}

fn term_row(
    returned: Option<Var>,
    at: u32,
    count: usize,
    divisor: u64,
    word: TermWord,
) -> Option<Row>
    ensures { result ≡ spec.term_row returned at count divisor word }
{
    match word {
        TermWord::Old => bare(Sort::OldVariable(at)),
        TermWord::Add => term(TermNode::Add(count), Parts::Many(Sort::Term)),
        TermWord::Sub => term(TermNode::Sub, Parts::Two(Sort::Term, Sort::Term)),
        TermWord::Mul => term(TermNode::Mul(count), Parts::Many(Sort::Term)),
        TermWord::Div => term(
            TermNode::Div(divisor),
            Parts::Two(Sort::Term, Sort::Divisor),
        ),
        TermWord::WrapUnsigned => term(TermNode::WrapUnsigned, Parts::One(Sort::Term)),
        TermWord::WrapSigned => term(TermNode::WrapSigned, Parts::One(Sort::Term)),
        TermWord::Bits => term(TermNode::Bits, Parts::One(Sort::Term)),
        TermWord::Returned => variable(returned),
    }
}

fn condition_row(count: usize, word: ConditionWord) -> Option<Row>
    ensures { result ≡ spec.condition_row count word }
{
    let comparison = Parts::Two(Sort::Term, Sort::Term);
    match word {
        ConditionWord::Le => condition(CondNode::Le, comparison),
        ConditionWord::Lt => condition(CondNode::Lt, comparison),
        ConditionWord::Eq => condition(CondNode::Eq, comparison),
        ConditionWord::Ne => condition(CondNode::Ne, comparison),
        ConditionWord::Not => condition(CondNode::Not, Parts::One(Sort::Condition)),
        ConditionWord::And => condition(CondNode::And(count), Parts::Many(Sort::Condition)),
        ConditionWord::Or => condition(CondNode::Or(count), Parts::Many(Sort::Condition)),
    }
}

fn assertion_row(at: u32, count: usize, word: AssertionWord) -> Option<Row>
    ensures { result ≡ spec.assertion_row at count word }
{
    let many = Parts::Many(Sort::Assertion);
    match word {
        AssertionWord::Infinity => assertion(AssertionNode::Infinity, Parts::Zero),
        AssertionWord::Cost => bare(Sort::Function(at)),
        AssertionWord::Num => assertion(AssertionNode::Num, Parts::One(Sort::Term)),
        AssertionWord::Total => assertion(AssertionNode::Total(count), many),
        AssertionWord::Greatest => assertion(AssertionNode::Greatest(count), many),
        AssertionWord::Product => assertion(AssertionNode::Product(count), many),
        AssertionWord::Guard => assertion(
            AssertionNode::Guard,
            Parts::Two(Sort::Condition, Sort::Assertion),
        ),
        AssertionWord::If => assertion(
            AssertionNode::If,
            Parts::Three(Sort::Condition, Sort::Assertion, Sort::Assertion),
        ),
        AssertionWord::Named => bare(Sort::KnownName(at)),
    }
}

fn definition_row(at: u32, count: usize, word: AssertionWord) -> Option<Row>
    ensures { result ≡ spec.definition_row at count word }
{
    let many = Parts::Many(Sort::Definition);
    match word {
        AssertionWord::Infinity => None,
        AssertionWord::Cost => bare(Sort::Function(at)),
        AssertionWord::Num => None,
        AssertionWord::Total => assertion(AssertionNode::Total(count), many),
        AssertionWord::Greatest => assertion(AssertionNode::Greatest(count), many),
        AssertionWord::Product => assertion(AssertionNode::Product(count), many),
        AssertionWord::Guard => None,
        AssertionWord::If => None,
        AssertionWord::Named => bare(Sort::Name),
    }
}

fn row_of_term(
    returned: Option<Var>,
    at: u32,
    count: usize,
    divisor: u64,
    word: &[u8],
) -> Option<Row>
    ensures { result ≡ spec.found_row returned Sort.Term at count divisor word.now }
{
    term_row(returned, at, count, divisor, term_word(word)?)
}

fn row_of_condition(count: usize, word: &[u8]) -> Option<Row>
    ensures { result ≡ spec.found_row None Sort.Condition 0 count 0 word.now }
{
    condition_row(count, condition_word(word)?)
}

fn row_of_assertion(at: u32, count: usize, word: &[u8]) -> Option<Row>
    ensures { result ≡ spec.found_row None Sort.Assertion at count 0 word.now }
{
    assertion_row(at, count, assertion_word(word)?)
}

fn row_of_definition(at: u32, count: usize, word: &[u8]) -> Option<Row>
    ensures { result ≡ spec.found_row None Sort.Definition at count 0 word.now }
{
    definition_row(at, count, definition_word(word)?)
}

fn found_row(
    returned: Option<Var>,
    sort: Sort,
    at: u32,
    count: usize,
    divisor: u64,
    word: &[u8],
) -> Option<Row>
    ensures { result ≡ spec.found_row returned sort at count divisor word.now }
{
    match sort {
        Sort::Term => row_of_term(returned, at, count, divisor, word),
        Sort::Condition => row_of_condition(count, word),
        Sort::Assertion => row_of_assertion(at, count, word),
        Sort::Definition => row_of_definition(at, count, word),
        Sort::Divisor => None,
        Sort::OldVariable(_) => None,
        Sort::Function(_) => None,
        Sort::KnownName(_) => None,
        Sort::Name => None,
    }
}

fn fit(parts: Parts, count: usize) -> bool
    ensures { result ≡ flattening.fit parts count }
{
    match parts {
        Parts::Zero => count == 0,
        Parts::One(_) => count == 1,
        Parts::Two(_, _) => count == 2,
        Parts::Three(_, _, _) => count == 3,
        Parts::Many(_) => count >= 2,
    }
}

/// The row of a list at this place of a text, by its head and the number of its other parts, where
/// it has as many as it may. Of a quotient the divisor is given.
pub fn row_of_list(
    returned: Option<Var>,
    sort: Sort,
    at: u32,
    count: usize,
    divisor: u64,
    word: &[u8],
) -> Option<Row>
    ensures { result ≡ spec.fitting (spec.found_row returned sort at count divisor word.now) count }
{
    let row = found_row(returned, sort, at, count, divisor, word)?;
    if fit(row.parts, count) {
        Some(row)
    } else {
        None
    }
}
