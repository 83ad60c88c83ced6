// The polynomials of parts, on stacks.
ghost use Rattle.std.specs.Prelude.{◌≡◌, OnOk, drop};
ghost use Rattle.qs_assert.specs.Reading.{others};
ghost use Rattle.qs_poly.specs.Atoms.{tree_of};
ghost use Rattle.qs_entail.specs.Answers.{Follows};
ghost use Rattle.qs_entail.specs.Stacks.{attempt_of, seen, atom_on, first, on_one, on_both};
ghost use Rattle.qs_entail.specs.Stacks.{joined_from, Builds, KeepsGiven};

use crate::operation::{Operation, limited, operate};
use crate::stop::{Limit, Stop};
use qs_assert::stack;
use qs_base::NoMemory;
use qs_poly::{Atom, Poly};
use std::alloc::Global;

/// A polynomial, or why there is none.
#[derive(Drop)]
pub enum Built {
    Made(Poly),
    Broken,
    Past(Limit),
}

/// What makes an atom of a polynomial.
#[derive(Clone, Copy)]
pub enum Head {
    Num,
    Div(u64),
    Wrapu,
    Wraps,
    Bits,
}

/// Keeps what a step answers, want of memory aside.
pub fn kept(given: Result<Poly, Stop>) -> Result<Built, NoMemory>
    ensures { KeepsGiven given result }
{
    match given {
        Ok(poly) => Ok(Built::Made(poly)),
        Err(Stop::NoMemory) => Err(NoMemory),
        Err(Stop::Breaks) => Ok(Built::Broken),
        Err(Stop::Passes(limit)) => Ok(Built::Past(limit)),
    }
}

/// What was kept.
pub fn told(built: Built) -> Result<Poly, Stop>
    ensures { Follows result (attempt_of built) }
{
    match built {
        Built::Made(poly) => Ok(poly),
        Built::Broken => Err(Stop::Breaks),
        Built::Past(limit) => Err(Stop::Passes(limit)),
    }
}

/// Takes the first item off, or a broken one where there is none.
#[tactic(auto, using(qs_assert::proofs::StackViewLaws::mapped_first, qs_assert::proofs::StackViewLaws::mapped_others))]
pub fn take_first(stack: &mut Vec<Built>) -> Built
    ensures value { attempt_of result ≡ first (seen stack.old.items) }
    ensures left { seen stack.new.items ≡ others (seen stack.old.items) }
{
    stack::take_first(stack, Built::Broken)
}

/// The operation on two, or why the first or the second isn't there.
pub fn on_both(alloc: Global, operation: Operation, a: &Built, b: &Built) -> Result<Built, NoMemory>
    ensures { Builds (on_both operation (attempt_of a.now) (attempt_of b.now)) result }
{
    match a {
        Built::Made(p) => match b {
            Built::Made(q) => kept(operate(alloc, operation, p, q)),
            Built::Broken => Ok(Built::Broken),
            Built::Past(limit) => Ok(Built::Past(*limit)),
        },
        Built::Broken => Ok(Built::Broken),
        Built::Past(limit) => Ok(Built::Past(*limit)),
    }
}

fn atom_on(head: Head, p: Poly) -> Atom
    ensures { tree_of result ≡ atom_on head p }
{
    match head {
        Head::Num => Atom::Num(p),
        Head::Div(k) => Atom::Div(p, k),
        Head::Wrapu => Atom::Wrapu(p),
        Head::Wraps => Atom::Wraps(p),
        Head::Bits => Atom::Bits(p),
    }
}

/// The atom, or why its part isn't there.
pub fn on_one(alloc: Global, head: Head, a: Built) -> Result<Built, NoMemory>
    ensures { Builds (on_one head (attempt_of a)) result }
{
    match a {
        Built::Made(p) => {
            let atom = atom_on(head, p);
            Ok(Built::Made(Poly::atom(alloc, &atom)?))
        }
        Built::Broken => Ok(Built::Broken),
        Built::Past(limit) => Ok(Built::Past(limit)),
    }
}

/// Takes the first items off, and joins them to a number from left to right.
pub fn take_joined(
    alloc: Global,
    operation: Operation,
    start: i64,
    count: usize,
    stack: &mut Vec<Built>,
) -> Result<Built, NoMemory>
    ensures value { Builds (joined_from start operation count (seen stack.old.items)) result }
    ensures left { OnOk result (seen stack.new.items ≡ drop count (seen stack.old.items)) }
{
    let mut so_far = kept(limited(Poly::number(alloc, start)))?;
    let mut left = count;
    while left > 0 {
        left -= 1;
        let item = take_first(stack);
        so_far = on_both(alloc, operation, &so_far, &item)?;
    }
    Ok(so_far)
}
