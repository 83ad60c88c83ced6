// Derivations from their heads, the last first.
ghost use Rattle.qs_prooftext.specs.DerivationHeads as heads;
ghost use Rattle.qs_prooftext.specs.DerivationHeads.{arity, derivation_head, planted, reason_view};
ghost use Rattle.qs_prooftext.specs.Planting.{Makes, Takes};
ghost use Rattle.qs_triples.specs.Derivations as derivations;
ghost use Rattle.qs_triples.specs.Derivations.{DerivationTree};
ghost use Rattle.qs_triples.specs.TreeOf.{derivation_tree as tree_of};
ghost use Rattle.qs_prooftext.specs.HeadWalks.{derivation_walk, Grows};

use crate::statements::{DerivationHead, Reason};
use crate::taking::{Subtree, take_all, take_boxed, take_first};
use qs_base::NoMemory;
use qs_triples::Derivation;
use std::alloc::Global;

impl Subtree for Derivation {
    ghost Tree = { DerivationTree };

    ghost tree = { tree_of };

    ghost blank = { derivations.leaf };

    fn missing() -> Derivation {
        Derivation::Leaf
    }
}

fn plant_conditional(alloc: Global, stack: &mut Vec<Derivation>) -> Result<Derivation, NoMemory>
    ensures made { Makes tree_of (planted heads.conditional) stack.old result }
    ensures left { Takes tree_of 2 stack.old stack.new result }
{
    let first = take_boxed(alloc, stack)?;
    let second = take_boxed(alloc, stack)?;
    Ok(Derivation::Conditional(first, second))
}

fn plant_loop(
    alloc: Global,
    stack: &mut Vec<Derivation>,
    reason: Reason,
) -> Result<Derivation, NoMemory>
    ensures made { Makes tree_of (planted (heads.loop (reason_view reason))) stack.old result }
    ensures left { Takes tree_of 2 stack.old stack.new result }
{
    let body = take_boxed(alloc, stack)?;
    let step = take_boxed(alloc, stack)?;
    Ok(Derivation::Loop(reason.assertion, reason.certificate, body, step))
}

/// The derivation with this head, whose parts are taken off the stack.
fn plant(
    alloc: Global,
    stack: &mut Vec<Derivation>,
    made: DerivationHead,
) -> Result<Derivation, NoMemory>
    ensures made { Makes tree_of (planted (derivation_head made)) stack.old result }
    ensures left { Takes tree_of (arity (derivation_head made)) stack.old stack.new result }
{
    match made {
        DerivationHead::Leaf => Ok(Derivation::Leaf),
        DerivationHead::Sequence(count) => {
            Ok(Derivation::Sequence(take_all(alloc, stack, count)?))
        }
        DerivationHead::Conditional => plant_conditional(alloc, stack),
        DerivationHead::Loop(reason) => plant_loop(alloc, stack, reason),
        DerivationHead::Switch(count) => Ok(Derivation::Switch(take_all(alloc, stack, count)?)),
        DerivationHead::Call(frame) => Ok(Derivation::Call(frame.assertion, frame.certificate)),
        DerivationHead::BalancedCall => Ok(Derivation::BalancedCall),
        DerivationHead::Consequence(stronger) => {
            let part = take_boxed(alloc, stack)?;
            Ok(Derivation::Consequence(stronger.assertion, stronger.certificate, part))
        }
    }
}

/// The derivation whose heads these are, each before those of its parts.
pub fn build(alloc: Global, heads: Vec<DerivationHead>) -> Result<Derivation, NoMemory>
    ensures { Grows derivation_walk tree_of heads result }
{
    let mut left = heads;
    let mut stack = Vec::new(alloc);
    'heads: while let Some(made) = left.pop() {
        let tree = plant(alloc, &mut stack, made)?;
        stack.push(tree)?;
    }
    Ok(take_first(&mut stack))
}
