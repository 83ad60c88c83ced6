// The values of the nodes of a list, from its end.
ghost use Rattle.std.specs.Prelude.{◌≡◌, IfOk, slice_index_or, pos};
ghost use Rattle.qs_assert.specs.Bounds as bounds;
ghost use Rattle.qs_assert.specs.Bounds.{arguments};
ghost use Rattle.qs_assert.specs.Evaluations.{found, nodes_amount, Steps, StepsHead, StepsNode};
ghost use Rattle.qs_assert.specs.Joining.{join_step};
ghost use Rattle.qs_assert.specs.Stacks.{Changes, sum_step, product_step, difference_step};
ghost use Rattle.qs_assert.specs.Stacks.{step_term, step_comparison, step_cond};
ghost use Rattle.qs_assert.specs.Stacks.{guard_step, choose_step, num_step};
ghost use Rattle.qs_assert.specs.Comparing.{relation_of};

use crate::amounts::Joining;
use crate::stack::{cut, front, put, take_first};
use crate::truths::Relation;
use crate::{Amount, AssertionNode, CondNode, Node, TermNode, VarKind, amounts, numbers, truths};
use indexmap::IndexMap;
use qs_base::{Name, NoMemory};
use std::alloc::Global;

/// The values of the trees that are read, those of a sort on one stack.
#[derive(Drop)]
pub struct Evaluation {
    pub numbers: Vec<Option<i128>>,
    pub tests: Vec<Option<bool>>,
    pub amounts: Vec<Amount>,
}

fn item(list: &[i64], at: u32) -> i64
    ensures { result ≡ slice_index_or list.now at (pos 0) }
{
    let at = at as usize;
    if at < list.len() { list[at] } else { 0 }
}

fn argument(args: &[i64], kind: VarKind) -> i64
    ensures { result ≡ bounds.argument args.now kind }
{
    match kind {
        VarKind::Plain(i) => item(args, i),
        VarKind::Temporary(_) => 0,
        VarKind::Old(_) => 0,
        VarKind::Returned => 0,
    }
}

/// The cost of a function by its number, in bytes, 0 where none is given.
pub fn cost(costs: &[u32], at: u32) -> u32
    ensures { result ≡ slice_index_or costs.now at 0 }
{
    let at = at as usize;
    if at < costs.len() { costs[at] } else { 0 }
}

fn amount_of(known: &IndexMap<Name, Amount>, name: &Name) -> Amount
    ensures { result ≡ found known.now.entries name.now }
{
    match known.get(name) {
        Some(amount) => *amount,
        None => Amount::Infinite,
    }
}

fn put_sum(stack: &mut Vec<Option<i128>>, count: usize) -> Result<(), NoMemory>
    ensures { Changes (sum_step count) stack.old.items stack.new.items result }
{
    let value = numbers::sum(front(stack, count));
    cut(stack, count);
    put(stack, value)
}

fn put_product(stack: &mut Vec<Option<i128>>, count: usize) -> Result<(), NoMemory>
    ensures { Changes (product_step count) stack.old.items stack.new.items result }
{
    let value = numbers::product(front(stack, count));
    cut(stack, count);
    put(stack, value)
}

fn put_difference(stack: &mut Vec<Option<i128>>) -> Result<(), NoMemory>
    ensures { Changes difference_step stack.old.items stack.new.items result }
{
    let a = take_first(stack, Some(0));
    let b = take_first(stack, Some(0));
    put(stack, numbers::difference(a, b))
}

fn step_term(stack: &mut Vec<Option<i128>>, node: TermNode, args: &[i64]) -> Result<(), NoMemory>
    ensures { Changes (step_term (arguments args.now) node) stack.old.items stack.new.items result }
{
    match node {
        TermNode::Number(k) => put(stack, numbers::known(i128::from(k))),
        TermNode::Variable(x) => put(stack, numbers::known(i128::from(argument(args, x.kind)))),
        TermNode::Add(count) => put_sum(stack, count),
        TermNode::Sub => put_difference(stack),
        TermNode::Mul(count) => put_product(stack, count),
        TermNode::Div(k) => {
            let a = take_first(stack, Some(0));
            put(stack, numbers::quotient(a, k))
        }
        TermNode::WrapUnsigned => {
            let a = take_first(stack, Some(0));
            put(stack, numbers::wrapped_unsigned(a))
        }
        TermNode::WrapSigned => {
            let a = take_first(stack, Some(0));
            put(stack, numbers::wrapped_signed(a))
        }
        TermNode::Bits => {
            let a = take_first(stack, Some(0));
            put(stack, numbers::bits(a))
        }
    }
}

impl Evaluation {
    fn compare(&mut self, relation: Relation) -> Result<(), NoMemory>
        ensures { Steps (step_comparison (relation_of relation)) self.old self.new result }
    {
        let a = take_first(&mut self.numbers, Some(0));
        let b = take_first(&mut self.numbers, Some(0));
        put(&mut self.tests, truths::compared(relation, a, b))
    }

    fn step_cond(&mut self, node: CondNode) -> Result<(), NoMemory>
        ensures { Steps (step_cond node) self.old self.new result }
    {
        match node {
            CondNode::Le => self.compare(Relation::AtMost),
            CondNode::Lt => self.compare(Relation::Less),
            CondNode::Eq => self.compare(Relation::Equal),
            CondNode::Ne => self.compare(Relation::Different),
            CondNode::Not => {
                let test = take_first(&mut self.tests, Some(true));
                put(&mut self.tests, truths::negated(test))
            }
            CondNode::And(count) => {
                let test = truths::all(front(&self.tests, count));
                cut(&mut self.tests, count);
                put(&mut self.tests, test)
            }
            CondNode::Or(count) => {
                let test = truths::some(front(&self.tests, count));
                cut(&mut self.tests, count);
                put(&mut self.tests, test)
            }
        }
    }

    fn join(&mut self, joining: Joining, count: usize) -> Result<(), NoMemory>
        ensures { Steps (join_step joining count) self.old self.new result }
    {
        let amount = amounts::joined(joining, front(&self.amounts, count));
        cut(&mut self.amounts, count);
        put(&mut self.amounts, amount)
    }

    fn guard(&mut self) -> Result<(), NoMemory>
        ensures { Steps guard_step self.old self.new result }
    {
        let test = take_first(&mut self.tests, Some(true));
        let amount = take_first(&mut self.amounts, Amount::Finite(0));
        put(
            &mut self.amounts,
            amounts::chosen(test, amount, Amount::Infinite),
        )
    }

    fn choose(&mut self) -> Result<(), NoMemory>
        ensures { Steps choose_step self.old self.new result }
    {
        let test = take_first(&mut self.tests, Some(true));
        let first = take_first(&mut self.amounts, Amount::Finite(0));
        let second = take_first(&mut self.amounts, Amount::Finite(0));
        put(&mut self.amounts, amounts::chosen(test, first, second))
    }

    fn num(&mut self) -> Result<(), NoMemory>
        ensures { Steps num_step self.old self.new result }
    {
        let number = take_first(&mut self.numbers, Some(0));
        put(&mut self.amounts, amounts::natural(number))
    }

    fn step_assertion(
        &mut self,
        node: &AssertionNode,
        costs: &[u32],
        known: &IndexMap<Name, Amount>,
    ) -> Result<(), NoMemory>
        ensures { StepsHead costs.now known.now.entries node.now self.old self.new result }
    {
        match node {
            AssertionNode::Natural(n) => put(&mut self.amounts, amounts::finite(u128::from(*n))),
            AssertionNode::Infinity => put(&mut self.amounts, Amount::Infinite),
            AssertionNode::Cost(f) => put(
                &mut self.amounts,
                amounts::finite(u128::from(cost(costs, f.0))),
            ),
            AssertionNode::Num => self.num(),
            AssertionNode::Total(count) => self.join(Joining::Sum, *count),
            AssertionNode::Greatest(count) => self.join(Joining::Greatest, *count),
            AssertionNode::Product(count) => self.join(Joining::Product, *count),
            AssertionNode::Guard => self.guard(),
            AssertionNode::If => self.choose(),
            AssertionNode::Named(name) => put(&mut self.amounts, amount_of(known, name)),
        }
    }

    fn step(
        &mut self,
        node: &Node,
        args: &[i64],
        costs: &[u32],
        known: &IndexMap<Name, Amount>,
    ) -> Result<(), NoMemory>
        ensures { StepsNode args.now costs.now known.now.entries node.now self.old self.new result }
    {
        match node {
            Node::Term(head) => step_term(&mut self.numbers, *head, args),
            Node::Condition(head) => self.step_cond(*head),
            Node::Assertion(head) => self.step_assertion(head, costs, known),
        }
    }
}

/// The amount of the assertion with these nodes, and 0 where there is none.
pub fn evaluate(
    alloc: Global,
    nodes: &[Node],
    args: &[i64],
    costs: &[u32],
    known: &IndexMap<Name, Amount>,
) -> Result<Amount, NoMemory>
    ensures { IfOk result (λ a. a ≡ nodes_amount args.now costs.now known.now.entries nodes.now) }
{
    let mut evaluation = Evaluation {
        numbers: Vec::new(alloc),
        tests: Vec::new(alloc),
        amounts: Vec::new(alloc),
    };
    let mut at = nodes.len();
    while at > 0 {
        at -= 1;
        evaluation.step(&nodes[at], args, costs, known)?;
    }
    Ok(take_first(&mut evaluation.amounts, Amount::Finite(0)))
}
