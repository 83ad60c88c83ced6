// Terms, conditions and assertions as tokens: one walk over their nodes, with a stack of what is
// still due.
ghost use Rattle.std.specs.Prelude.{◌≡◌, ◌∷◌, [], map, reverse, OnOk};
ghost use Rattle.qs_assert.specs.declared.node.Node.TheVariants.{Term as TermHead};
ghost use Rattle.qs_sexpr.specs.Marks.{closes, mark_of, opens, word};
ghost use Rattle.qs_prooftext_writing.specs.Putting.{assertion_put, condition_put, node_put, settled};
ghost use Rattle.qs_prooftext_writing.specs.Putting.{term_put, waiting, words_in_table as words};
ghost use Rattle.qs_prooftext_writing.specs.Tokens.{Writes, Begins, Owes, OwesList, variable_marks};
ghost use Rattle.qs_prooftext_writing.specs.Tokens.{term_marks, condition_marks, assertion_marks};
ghost use Rattle.qs_prooftext_writing.specs.Tokens.{nodes_marks};

use crate::naming::{WordTable, function_word, variable_word};
use qs_assert::stack::put_all;
use qs_assert::{Assertion, AssertionNode, Cond, CondNode, Node, Term, TermNode, Var, VarKind};
use qs_base::NoMemory;
use qs_sexpr::Token;
use std::alloc::Global;

/// What is due behind the tokens so far.
#[derive(Clone, Copy)]
pub enum Due {
    /// A tree.
    Tree,
    /// A number.
    Natural(u64),
    /// The end of a list.
    Close,
}

/// Puts a token behind the others.
pub fn put<'a>(out: &mut Vec<Token<'a>>, token: Token<'a>) -> Result<(), NoMemory>
    ensures { Writes out.old (mark_of token.entry ∷ []) out.new result }
{
    out.push(token)?;
    Ok(())
}

/// Puts the beginning of a list with this head.
pub fn begin<'a>(out: &mut Vec<Token<'a>>, head: &'a [u8]) -> Result<(), NoMemory>
    ensures { Writes out.old (opens ∷ word head.now ∷ []) out.new result }
{
    put(out, Token::Open)?;
    put(out, Token::Symbol(head))
}

/// Puts a list with this head alone.
pub fn put_alone<'a>(out: &mut Vec<Token<'a>>, head: &'a [u8]) -> Result<(), NoMemory>
    ensures { Writes out.old (opens ∷ word head.now ∷ closes ∷ []) out.new result }
{
    begin(out, head)?;
    put(out, Token::Close)
}

/// Puts a list with this head and one symbol.
pub fn put_named<'a>(
    out: &mut Vec<Token<'a>>,
    head: &'a [u8],
    name: &'a [u8],
) -> Result<(), NoMemory>
    ensures { Writes out.old (opens ∷ word head.now ∷ word name.now ∷ closes ∷ []) out.new result }
{
    begin(out, head)?;
    put(out, Token::Symbol(name))?;
    put(out, Token::Close)
}

/// Puts a variable.
pub fn put_variable<'a>(
    out: &mut Vec<Token<'a>>,
    table: WordTable<'a>,
    x: Var,
) -> Result<(), NoMemory>
    ensures { Writes out.old (variable_marks table.entry x) out.new result }
{
    match x.kind {
        VarKind::Plain(_) => put(out, Token::Symbol(variable_word(table, x))),
        VarKind::Temporary(_) => put(out, Token::Symbol(variable_word(table, x))),
        VarKind::Old(number) => {
            let plain = Var {
                kind: VarKind::Plain(number),
                number: x.number,
            };
            put_named(out, b"old", variable_word(table, plain))
        }
        VarKind::Returned => put_alone(out, b"result"),
    }
}

// ---- what is due

/// Puts the beginning of a list of so many trees.
fn begin_list<'a>(
    out: &mut Vec<Token<'a>>,
    due: &mut Vec<Due>,
    head: &'a [u8],
    trees: usize,
) -> Result<(), NoMemory>
    ensures puts { Writes out.old (opens ∷ word head.now ∷ []) out.new result }
    ensures dues { OwesList due.old trees due.new result }
{
    begin(out, head)?;
    due.push(Due::Close)?;
    put_all(due, Due::Tree, trees)
}

/// Puts what is due up to the next tree.
fn settle<'a>(out: &mut Vec<Token<'a>>, due: &mut Vec<Due>) -> Result<(), NoMemory>
    ensures puts { Writes out.old (settled (reverse due.old.items)) out.new result }
    ensures dues { OnOk result (reverse due.new.items ≡ waiting (reverse due.old.items)) }
{
    'due: while let Some(first) = due.pop() {
        match first {
            Due::Tree => return Ok(()),
            Due::Natural(value) => put(out, Token::Natural(value))?,
            Due::Close => put(out, Token::Close)?,
        }
    }
    Ok(())
}

// ---- nodes

fn put_term_node<'a>(
    out: &mut Vec<Token<'a>>,
    due: &mut Vec<Due>,
    table: WordTable<'a>,
    node: TermNode,
) -> Result<(), NoMemory>
    ensures puts { Begins out.old (term_put (words table.entry) node) out.new result }
    ensures dues { Owes due.old (term_put (words table.entry) node).dues due.new result }
{
    match node {
        TermNode::Number(value) => put(out, Token::Number(value)),
        TermNode::Variable(x) => put_variable(out, table, x),
        TermNode::Add(count) => begin_list(out, due, b"add", count),
        TermNode::Sub => begin_list(out, due, b"sub", 2),
        TermNode::Mul(count) => begin_list(out, due, b"mul", count),
        TermNode::Div(divisor) => {
            begin(out, b"div")?;
            due.push(Due::Close)?;
            due.push(Due::Natural(divisor))?;
            put_all(due, Due::Tree, 1)
        }
        TermNode::WrapUnsigned => begin_list(out, due, b"wrapu", 1),
        TermNode::WrapSigned => begin_list(out, due, b"wraps", 1),
        TermNode::Bits => begin_list(out, due, b"bits", 1),
    }
}

fn put_condition_node<'a>(
    out: &mut Vec<Token<'a>>,
    due: &mut Vec<Due>,
    node: CondNode,
) -> Result<(), NoMemory>
    ensures puts { Begins out.old (condition_put node) out.new result }
    ensures dues { Owes due.old (condition_put node).dues due.new result }
{
    match node {
        CondNode::Le => begin_list(out, due, b"le", 2),
        CondNode::Lt => begin_list(out, due, b"lt", 2),
        CondNode::Eq => begin_list(out, due, b"eq", 2),
        CondNode::Ne => begin_list(out, due, b"ne", 2),
        CondNode::Not => begin_list(out, due, b"not", 1),
        CondNode::And(count) => begin_list(out, due, b"and", count),
        CondNode::Or(count) => begin_list(out, due, b"or", count),
    }
}

fn put_assertion_node<'a>(
    out: &mut Vec<Token<'a>>,
    due: &mut Vec<Due>,
    table: WordTable<'a>,
    node: &'a AssertionNode,
) -> Result<(), NoMemory>
    ensures puts { Begins out.old (assertion_put (words table.entry) node.now) out.new result }
    ensures dues { Owes due.old (assertion_put (words table.entry) node.now).dues due.new result }
{
    match node {
        AssertionNode::Natural(value) => put(out, Token::Natural(*value)),
        AssertionNode::Infinity => begin_list(out, due, b"inf", 0),
        AssertionNode::Cost(f) => put_named(out, b"cost", function_word(table, *f)),
        AssertionNode::Num => begin_list(out, due, b"num", 1),
        AssertionNode::Total(count) => begin_list(out, due, b"add", *count),
        AssertionNode::Greatest(count) => begin_list(out, due, b"max", *count),
        AssertionNode::Product(count) => begin_list(out, due, b"mul", *count),
        AssertionNode::Guard => begin_list(out, due, b"guard", 2),
        AssertionNode::If => begin_list(out, due, b"if", 3),
        AssertionNode::Named(name) => put_named(out, b"name", name.bytes()),
    }
}

fn put_node<'a>(
    out: &mut Vec<Token<'a>>,
    due: &mut Vec<Due>,
    table: WordTable<'a>,
    node: &'a Node,
) -> Result<(), NoMemory>
    ensures puts { Begins out.old (node_put (words table.entry) node.now) out.new result }
    ensures dues { Owes due.old (node_put (words table.entry) node.now).dues due.new result }
{
    match node {
        Node::Term(head) => put_term_node(out, due, table, *head),
        Node::Condition(head) => put_condition_node(out, due, *head),
        Node::Assertion(head) => put_assertion_node(out, due, table, head),
    }
}

// ---- trees

fn put_term_nodes<'a>(
    alloc: Global,
    out: &mut Vec<Token<'a>>,
    table: WordTable<'a>,
    nodes: &'a [TermNode],
) -> Result<(), NoMemory>
    ensures { Writes out.old (nodes_marks table.entry (map TermHead nodes.now)) out.new result }
{
    let mut due = Vec::new(alloc);
    due.push(Due::Tree)?;
    for node in nodes {
        settle(out, &mut due)?;
        put_term_node(out, &mut due, table, *node)?;
    }
    settle(out, &mut due)
}

/// Puts a term.
#[tactic(auto, using(crate::proofs::PutLaws::term_alone))]
pub fn put_term<'a>(
    alloc: Global,
    out: &mut Vec<Token<'a>>,
    table: WordTable<'a>,
    t: &'a Term,
) -> Result<(), NoMemory>
    ensures { Writes out.old (term_marks table.entry t.now) out.new result }
{
    put_term_nodes(alloc, out, table, t.nodes())
}

/// Puts the tree that has these nodes.
pub fn put_nodes<'a>(
    alloc: Global,
    out: &mut Vec<Token<'a>>,
    table: WordTable<'a>,
    nodes: &'a [Node],
) -> Result<(), NoMemory>
    ensures { Writes out.old (nodes_marks table.entry nodes.now) out.new result }
{
    let mut due = Vec::new(alloc);
    due.push(Due::Tree)?;
    for node in nodes {
        settle(out, &mut due)?;
        put_node(out, &mut due, table, node)?;
    }
    settle(out, &mut due)
}

/// Puts a condition.
#[tactic(auto, using(crate::proofs::PutLaws::condition_alone))]
pub fn put_condition<'a>(
    alloc: Global,
    out: &mut Vec<Token<'a>>,
    table: WordTable<'a>,
    c: &'a Cond,
) -> Result<(), NoMemory>
    ensures { Writes out.old (condition_marks table.entry c.now) out.new result }
{
    put_nodes(alloc, out, table, c.nodes())
}

/// Puts an assertion.
#[tactic(auto, using(crate::proofs::PutLaws::assertion_alone))]
pub fn put_assertion<'a>(
    alloc: Global,
    out: &mut Vec<Token<'a>>,
    table: WordTable<'a>,
    a: &'a Assertion,
) -> Result<(), NoMemory>
    ensures { Writes out.old (assertion_marks table.entry a.now) out.new result }
{
    put_nodes(alloc, out, table, a.nodes())
}
