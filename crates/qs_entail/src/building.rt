// The polynomials of terms and assertions. The list of nodes is read from its end, and each node
// takes the polynomials of its parts from a stack.
ghost use Rattle.std.specs.Prelude.{◌≡◌};
ghost use Rattle.qs_assert.specs.Reading.{others};
ghost use Rattle.qs_entail.specs.Answers.{Follows};
ghost use Rattle.qs_entail.specs.Building as building;
ghost use Rattle.qs_entail.specs.Stacks as stacks;
ghost use Rattle.qs_entail.specs.Stacks.{seen, both_seen, Changes, Steps};
ghost use Rattle.qs_entail.specs.Stacks.{step_term, sum_step, product_step, head_step};
ghost use Rattle.qs_entail.specs.Stacks.{step_assertion, step_node, none_first};

use crate::operation::{Operation, limited};
pub use crate::operation::{atom_of, difference, number_of, times_number};
use crate::stack::{Built, Head, kept, on_both, on_one, take_first, take_joined, told};
use crate::stop::Stop;
use qs_assert::stack::{cut, put};
use qs_assert::{AssertionNode, AssertionView, CondNode, Node, Term, TermNode, Var};
use qs_base::{FnId, NoMemory};
use qs_poly::{Atom, Poly};
use std::alloc::Global;

/// The polynomials of the trees that are read, those of a sort on one stack.
#[derive(Drop)]
pub struct Building {
    pub terms: Vec<Built>,
    pub assertions: Vec<Built>,
}

fn put_number(alloc: Global, stack: &mut Vec<Built>, k: i64) -> Result<(), NoMemory>
    ensures { Changes (step_term (TermNode.Number k)) stack.old.items stack.new.items result }
{
    let number = kept(limited(Poly::number(alloc, k)))?;
    put(stack, number)
}

fn put_variable(alloc: Global, stack: &mut Vec<Built>, x: Var) -> Result<(), NoMemory>
    ensures { Changes (step_term (TermNode.Variable x)) stack.old.items stack.new.items result }
{
    let variable = Poly::atom(alloc, &Atom::Variable(x))?;
    put(stack, Built::Made(variable))
}

fn put_difference(alloc: Global, stack: &mut Vec<Built>) -> Result<(), NoMemory>
    ensures { Changes (step_term TermNode.Sub) stack.old.items stack.new.items result }
{
    let a = take_first(stack);
    let b = take_first(stack);
    let item = on_both(alloc, Operation::Difference, &a, &b)?;
    put(stack, item)
}

fn put_sum(alloc: Global, stack: &mut Vec<Built>, count: usize) -> Result<(), NoMemory>
    ensures { Changes (sum_step count) stack.old.items stack.new.items result }
{
    let item = take_joined(alloc, Operation::Sum, 0, count, stack)?;
    put(stack, item)
}

fn put_product(alloc: Global, stack: &mut Vec<Built>, count: usize) -> Result<(), NoMemory>
    ensures { Changes (product_step count) stack.old.items stack.new.items result }
{
    let item = take_joined(alloc, Operation::Product, 1, count, stack)?;
    put(stack, item)
}

fn put_on_one(alloc: Global, stack: &mut Vec<Built>, head: Head) -> Result<(), NoMemory>
    ensures { Changes (head_step head) stack.old.items stack.new.items result }
{
    let part = take_first(stack);
    let item = on_one(alloc, head, part)?;
    put(stack, item)
}

fn step_term(alloc: Global, stack: &mut Vec<Built>, node: TermNode) -> Result<(), NoMemory>
    ensures { Changes (step_term node) stack.old.items stack.new.items result }
{
    match node {
        TermNode::Number(k) => put_number(alloc, stack, k),
        TermNode::Variable(x) => put_variable(alloc, stack, x),
        TermNode::Add(count) => put_sum(alloc, stack, count),
        TermNode::Sub => put_difference(alloc, stack),
        TermNode::Mul(count) => put_product(alloc, stack, count),
        TermNode::Div(k) => put_on_one(alloc, stack, Head::Div(k)),
        TermNode::WrapUnsigned => put_on_one(alloc, stack, Head::Wrapu),
        TermNode::WrapSigned => put_on_one(alloc, stack, Head::Wraps),
        TermNode::Bits => put_on_one(alloc, stack, Head::Bits),
    }
}

/// The polynomial of a term.
pub fn term_polynomial(alloc: Global, t: &Term) -> Result<Poly, Stop>
    ensures { Follows result (building.term_polynomial t.now) }
{
    let nodes = t.nodes();
    let mut stack = Vec::new(alloc);
    let mut at = nodes.len();
    while at > 0 {
        at -= 1;
        step_term(alloc, &mut stack, nodes[at])?;
    }
    told(take_first(&mut stack))
}

/// Takes two items off.
fn drop_two(stack: &mut Vec<Built>)
    ensures { seen stack.new.items ≡ others (others (seen stack.old.items)) }
{
    let _first = take_first(stack);
    let _second = take_first(stack);
}

impl Building {
    fn step_cond(&mut self, node: CondNode)
        ensures { both_seen self.new ≡ stacks.step_cond node (both_seen self.old) }
    {
        match node {
            CondNode::Le => drop_two(&mut self.terms),
            CondNode::Lt => drop_two(&mut self.terms),
            CondNode::Eq => drop_two(&mut self.terms),
            CondNode::Ne => drop_two(&mut self.terms),
            CondNode::Not => {}
            CondNode::And(_) => {}
            CondNode::Or(_) => {}
        }
    }

    fn put_natural(&mut self, alloc: Global, n: u64) -> Result<(), NoMemory>
        ensures { Steps (step_assertion (AssertionNode.Natural n)) self.old self.new result }
    {
        let number = kept(number_of(alloc, n))?;
        put(&mut self.assertions, number)
    }

    fn put_cost(&mut self, alloc: Global, f: FnId) -> Result<(), NoMemory>
        ensures { Steps (step_assertion (AssertionNode.Cost f)) self.old self.new result }
    {
        let cost = Poly::atom(alloc, &Atom::Cost(f))?;
        put(&mut self.assertions, Built::Made(cost))
    }

    fn put_num(&mut self, alloc: Global) -> Result<(), NoMemory>
        ensures { Steps (step_assertion AssertionNode.Num) self.old self.new result }
    {
        let part = take_first(&mut self.terms);
        let item = on_one(alloc, Head::Num, part)?;
        put(&mut self.assertions, item)
    }

    /// Puts none in place of the first items.
    #[tactic(auto, using(crate::proofs::StackLaws::seen_cut))]
    fn put_none(&mut self, count: usize) -> Result<(), NoMemory>
        ensures { Steps (none_first count) self.old self.new result }
    {
        cut(&mut self.assertions, count);
        put(&mut self.assertions, Built::Broken)
    }

    fn step_assertion(&mut self, alloc: Global, node: &AssertionNode) -> Result<(), NoMemory>
        ensures { Steps (step_assertion node.now) self.old self.new result }
    {
        match node {
            AssertionNode::Natural(n) => self.put_natural(alloc, *n),
            AssertionNode::Infinity => self.put_none(0),
            AssertionNode::Cost(f) => self.put_cost(alloc, *f),
            AssertionNode::Num => self.put_num(alloc),
            AssertionNode::Total(count) => put_sum(alloc, &mut self.assertions, *count),
            AssertionNode::Greatest(count) => self.put_none(*count),
            AssertionNode::Product(count) => put_product(alloc, &mut self.assertions, *count),
            AssertionNode::Guard => self.put_none(1),
            AssertionNode::If => self.put_none(2),
            AssertionNode::Named(_) => self.put_none(0),
        }
    }

    fn step(&mut self, alloc: Global, node: &Node) -> Result<(), NoMemory>
        ensures { Steps (step_node node.now) self.old self.new result }
    {
        match node {
            Node::Term(head) => step_term(alloc, &mut self.terms, *head),
            Node::Condition(head) => {
                self.step_cond(*head);
                Ok(())
            }
            Node::Assertion(head) => self.step_assertion(alloc, head),
        }
    }
}

/// The polynomial of an assertion; it breaks where the assertion isn't plain.
pub fn assertion_polynomial(alloc: Global, a: &AssertionView<'_>) -> Result<Poly, Stop>
    ensures { Follows result (building.assertion_polynomial a.now) }
{
    let nodes = a.nodes();
    let mut building = Building {
        terms: Vec::new(alloc),
        assertions: Vec::new(alloc),
    };
    let mut at = nodes.len();
    while at > 0 {
        at -= 1;
        building.step(alloc, &nodes[at])?;
    }
    told(take_first(&mut building.assertions))
}
