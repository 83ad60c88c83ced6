// What conditions add to what is known.
ghost use Rattle.qs_assert.specs.Trees as trees;
ghost use Rattle.qs_poly.specs.Operations.{lessened};
ghost use Rattle.qs_entail.specs.Answers.{Follows, FollowsAs, ListFollows};
ghost use Rattle.qs_entail.specs.Building.{limited};
ghost use Rattle.qs_entail.specs.Extending.{Extends};
ghost use Rattle.qs_entail.specs.Flattening as flattening;
ghost use Rattle.qs_entail.specs.Flattening.{both_polynomials, polynomials_of};
ghost use Rattle.qs_entail.specs.Learning.{Learns, Pushes};
ghost use Rattle.qs_entail.specs.Parts.{pair_view};
ghost use Rattle.qs_entail.specs.Pushing as pushing;
ghost use Rattle.qs_entail.specs.View.{known_view};

use crate::Stop;
use crate::building::{difference, term_polynomial};
use crate::flattening::put_flat;
use crate::known::Known;
use crate::parts::{Sides, both_sides};
use qs_assert::{Cond, CondNode, CondView, Node, begins, parts};
use qs_poly::Poly;
use std::alloc::Global;

/// The polynomials of two terms.
#[derive(Drop)]
struct Pair {
    left: Poly,
    right: Poly,
}

fn both_polynomials(alloc: Global, sides: &Sides) -> Result<Pair, Stop>
    ensures { FollowsAs pair_view result (both_polynomials sides.now.left sides.now.right) }
{
    let left = term_polynomial(alloc, &sides.left)?;
    let right = term_polynomial(alloc, &sides.right)?;
    Ok(Pair { left, right })
}

/// The second less the first, less 1.
fn room(alloc: Global, pair: &Pair) -> Result<Poly, Stop>
    ensures { Follows result (limited (lessened pair.now.right 1 pair.now.left 1)) }
{
    let room = pair.right.less(alloc, 1, &pair.left, 1)?;
    Ok(room)
}

fn at_most(alloc: Global, sides: &Sides) -> Result<Vec<Poly>, Stop>
    ensures { ListFollows result (polynomials_of (trees.le sides.now.left sides.now.right)) }
{
    let pair = both_polynomials(alloc, sides)?;
    let more = difference(alloc, &pair.right, &pair.left)?;
    let mut list = Vec::new(alloc);
    list.push(more)?;
    Ok(list)
}

fn less(alloc: Global, sides: &Sides) -> Result<Vec<Poly>, Stop>
    ensures { ListFollows result (polynomials_of (trees.lt sides.now.left sides.now.right)) }
{
    let pair = both_polynomials(alloc, sides)?;
    let more = room(alloc, &pair)?;
    let mut list = Vec::new(alloc);
    list.push(more)?;
    Ok(list)
}

fn equal(alloc: Global, sides: &Sides) -> Result<Vec<Poly>, Stop>
    ensures { ListFollows result (polynomials_of (trees.eq sides.now.left sides.now.right)) }
{
    let pair = both_polynomials(alloc, sides)?;
    let more = difference(alloc, &pair.right, &pair.left)?;
    let less = difference(alloc, &pair.left, &pair.right)?;
    let mut list = Vec::new(alloc);
    list.push(more)?;
    list.push(less)?;
    Ok(list)
}

/// The polynomials that are pushed for a condition that is pushed whole.
fn polynomials(alloc: Global, c: &Cond) -> Result<Vec<Poly>, Stop>
    ensures { ListFollows result (polynomials_of c.now) }
{
    let nodes = c.nodes();
    if begins(nodes, &Node::Condition(CondNode::Le)) {
        let sides = both_sides(alloc, parts(nodes))?;
        return at_most(alloc, &sides);
    }
    if begins(nodes, &Node::Condition(CondNode::Lt)) {
        let sides = both_sides(alloc, parts(nodes))?;
        return less(alloc, &sides);
    }
    if begins(nodes, &Node::Condition(CondNode::Eq)) {
        let sides = both_sides(alloc, parts(nodes))?;
        return equal(alloc, &sides);
    }
    Ok(Vec::new(alloc))
}

/// Pushes a condition whole.
fn push_whole(alloc: Global, c: &Cond, known: &mut Known) -> Result<(), Stop>
    ensures step { Learns (flattening.push_whole c.now) known.old known.new result }
    ensures front { Extends (known_view known.old) (known_view known.new) }
{
    let mut list = polynomials(alloc, c)?;
    let condition = c.copy(alloc)?;
    known.polynomials.append(&mut list)?;
    known.conditions.push(condition)?;
    Ok(())
}

/// Pushes conditions whole.
fn push_wholes(alloc: Global, list: &[Cond], known: &mut Known) -> Result<(), Stop>
    ensures step { Learns (flattening.push_wholes list.now) known.old known.new result }
    ensures front { Extends (known_view known.old) (known_view known.new) }
{
    for c in list {
        push_whole(alloc, c, known)?;
    }
    Ok(())
}

/// Pushes a condition or its negation. What was known stays in front, also where this fails.
pub fn push(alloc: Global, c: &CondView<'_>, negated: bool, known: &mut Known) -> Result<(), Stop>
    ensures step { Pushes negated c.now known.old known.new result }
    ensures front { Extends (known_view known.old) (known_view known.new) }
{
    let mut list = Vec::new(alloc);
    put_flat(alloc, c, negated, &mut list)?;
    push_wholes(alloc, &list, known)
}

/// Pushes conditions one after the other. What was known stays in front, also where this fails.
pub fn push_list(alloc: Global, list: &[Cond], known: &mut Known) -> Result<(), Stop>
    ensures step { Learns (pushing.push_list list.now) known.old known.new result }
    ensures front { Extends (known_view known.old) (known_view known.new) }
{
    for c in list {
        push(alloc, &c.view(), false, known)?;
    }
    Ok(())
}
