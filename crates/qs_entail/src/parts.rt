// The parts of assertions and conditions.
ghost use Rattle.std.specs.Prelude.{◌≡◌, ◌++◌, IfOk, pos};
ghost use Rattle.qs_assert.specs.Trees.{TermTree, assertions_of};
ghost use Rattle.qs_assert.specs.Listing.{inner_term};
ghost use Rattle.qs_entail.specs.Answers.{FindsAs, Finds, FollowsAs};
ghost use Rattle.qs_entail.specs.Facts as facts;
ghost use Rattle.qs_entail.specs.Faults as faults;
ghost use Rattle.qs_entail.specs.Parts.{guarded_view, sides_view, HaveNodes};
ghost use Rattle.qs_entail.specs.Fronts as fronts;
ghost use Rattle.qs_entail.specs.Standing.{counted};
ghost use Rattle.qs_entail.specs.Verdicts.{is_given};

use crate::Stop;
use qs_assert::{
    AssertionNode, AssertionView, AssertionViews, Cond, CondNode, CondView, Node, Term, begins,
    parts, split_tree,
};
use qs_base::NoMemory;
use std::alloc::Global;

/// The parts of a guard.
#[derive(Drop)]
pub struct Guarded<'a> {
    /// What has to hold.
    pub condition: CondView<'a>,
    /// The assertion.
    pub body: AssertionView<'a>,
}

/// Two terms of which a condition says that they differ.
#[derive(Drop)]
pub struct Sides {
    /// The first.
    pub left: Term,
    /// The second.
    pub right: Term,
}

fn is_greatest(nodes: &[Node]) -> bool
    ensures { result ≡ fronts.is_greatest nodes.now }
{
    match nodes.first() {
        Some(Node::Assertion(AssertionNode::Greatest(_))) => true,
        _ => false,
    }
}

fn is_total(nodes: &[Node]) -> bool
    ensures { result ≡ fronts.is_total nodes.now }
{
    match nodes.first() {
        Some(Node::Assertion(AssertionNode::Total(_))) => true,
        _ => false,
    }
}

fn greatest_count(nodes: &[Node]) -> Option<usize>
    ensures { result ≡ fronts.greatest_count nodes.now }
{
    match nodes.first() {
        Some(Node::Assertion(AssertionNode::Greatest(count))) => Some(*count),
        _ => None,
    }
}

fn total_count(nodes: &[Node]) -> Option<usize>
    ensures { result ≡ fronts.total_count nodes.now }
{
    match nodes.first() {
        Some(Node::Assertion(AssertionNode::Total(count))) => Some(*count),
        _ => None,
    }
}

/// How many members an assertion has, if it is the greatest of some.
#[tactic(auto, using(crate::proofs::HeadLaws::members_are))]
pub fn member_count(a: &AssertionView<'_>) -> Option<usize>
    ensures { faults.member_count a.now ≡ counted result }
{
    greatest_count(a.nodes())
}

/// How many summands an assertion has, if it is a sum.
#[tactic(auto, using(crate::proofs::HeadLaws::summands_are))]
pub fn summand_count(a: &AssertionView<'_>) -> Option<usize>
    ensures { faults.summand_count a.now ≡ counted result }
{
    total_count(a.nodes())
}

/// Whether an assertion is a guard.
#[tactic(auto, using(crate::proofs::HeadLaws::guard_given))]
pub fn is_guard(a: &AssertionView<'_>) -> bool
    ensures { result ≡ is_given (faults.guarded_of a.now) }
{
    begins(a.nodes(), &Node::Assertion(AssertionNode::Guard))
}

/// Whether a condition says that two terms differ.
#[tactic(auto, using(crate::proofs::HeadLaws::difference_given))]
pub fn says_different(c: &Cond) -> bool
    ensures { result ≡ is_given (facts.different_sides c.now) }
{
    let nodes = c.nodes();
    begins(nodes, &Node::Condition(CondNode::Ne))
        || (begins(nodes, &Node::Condition(CondNode::Not))
            && begins(parts(nodes), &Node::Condition(CondNode::Eq)))
}

/// The members of which an assertion is the greatest, if it is one.
pub fn members<'a>(a: &AssertionView<'a>) -> Option<AssertionViews<'a>>
    ensures { FindsAs assertions_of result (faults.members_of a.now) }
{
    let nodes = a.nodes();
    if !is_greatest(nodes) {
        return None;
    }
    Some(AssertionViews::from_nodes(parts(nodes)))
}

/// The summands of an assertion, if it is a sum.
pub fn summands<'a>(a: &AssertionView<'a>) -> Option<AssertionViews<'a>>
    ensures { FindsAs assertions_of result (faults.summands_of a.now) }
{
    let nodes = a.nodes();
    if !is_total(nodes) {
        return None;
    }
    Some(AssertionViews::from_nodes(parts(nodes)))
}

/// A member by its number, if there is one.
#[tactic(auto, using(crate::proofs::MemberNumbers::passed, crate::proofs::MemberNumbers::found, crate::proofs::MemberNumbers::missing))]
fn member_numbered<'a>(members: AssertionViews<'a>, number: usize) -> Option<AssertionView<'a>>
    ensures { Finds result (faults.member_at (assertions_of members.entry) (pos number)) }
{
    let mut rest = members;
    let mut left = number;
    while left > 0 {
        rest = rest.split_first()?.1;
        left -= 1;
    }
    Some(rest.split_first()?.0)
}

/// A member by its number, which may be below 0, if there is one.
#[tactic(auto, using(crate::proofs::MemberNumbers::negative))]
fn member_at<'a>(members: AssertionViews<'a>, number: i64) -> Option<AssertionView<'a>>
    ensures { Finds result (faults.member_at (assertions_of members.entry) number) }
{
    if number < 0 {
        return None;
    }
    member_numbered(members, number as usize)
}

/// A member of a greatest by its number, from 0, if there is one.
#[tactic(auto, using(crate::proofs::MemberNumbers::among, crate::proofs::MemberNumbers::nowhere))]
pub fn picked<'a>(p: &AssertionView<'a>, number: i64) -> Option<AssertionView<'a>>
    ensures { Finds result (faults.member_of p.now number) }
{
    member_at(members(p)?, number)
}

/// The condition and the assertion of a guard, if the assertion is one.
pub fn guarded_of<'a>(a: &AssertionView<'a>) -> Option<Guarded<'a>>
    ensures { FindsAs guarded_view result (faults.guarded_of a.now) }
{
    let nodes = a.nodes();
    if !begins(nodes, &Node::Assertion(AssertionNode::Guard)) {
        return None;
    }
    let (first, others) = split_tree(parts(nodes));
    let condition = CondView::from_nodes(first);
    let body = AssertionView::from_nodes(others);
    Some(Guarded { condition, body })
}

/// The two terms that have these nodes.
pub fn both_sides(alloc: Global, nodes: &[Node]) -> Result<Sides, NoMemory>
    requires { (t : TermTree) × ((u : TermTree) × (nodes.now ≡ inner_term t ++ inner_term u)) }
    ensures { IfOk result (λ sides. HaveNodes sides nodes.now) }
{
    let (first, others) = split_tree(nodes);
    let left = Term::from_inner(alloc, first)?;
    let right = Term::from_inner(alloc, others)?;
    Ok(Sides { left, right })
}

/// The terms of which a condition says that they differ; it breaks where it says no such thing.
pub fn different_sides(alloc: Global, c: &Cond) -> Result<Sides, Stop>
    ensures { FollowsAs sides_view result (facts.different_sides c.now) }
{
    let nodes = c.nodes();
    let inner = parts(nodes);
    if begins(nodes, &Node::Condition(CondNode::Ne)) {
        let sides = both_sides(alloc, inner)?;
        return Ok(sides);
    }
    if begins(nodes, &Node::Condition(CondNode::Not))
        && begins(inner, &Node::Condition(CondNode::Eq))
    {
        let sides = both_sides(alloc, parts(inner))?;
        return Ok(sides);
    }
    Err(Stop::Breaks)
}
