// Certificates from their heads, the last first.
ghost use Rattle.qs_entail.specs.Certificates as certificates;
ghost use Rattle.qs_entail.specs.Certificates.{CertTree};
ghost use Rattle.qs_entail.specs.View.{cert_tree};
ghost use Rattle.qs_prooftext.specs.CertHeads as heads;
ghost use Rattle.qs_prooftext.specs.CertHeads.{arity, head_view, planted};
ghost use Rattle.qs_prooftext.specs.Planting.{Makes, Takes};
ghost use Rattle.qs_prooftext.specs.HeadWalks.{certificate_walk, Grows};

use crate::heads::CertHead;
use crate::taking::{Subtree, take_all, take_boxed, take_first};
use qs_assert::{Assertion, Cond};
use qs_base::NoMemory;
use qs_entail::Certificate;
use std::alloc::Global;

impl Subtree for Certificate {
    ghost Tree = { CertTree };

    ghost tree = { cert_tree };

    ghost blank = { certificates.same };

    fn missing() -> Certificate {
        Certificate::Same
    }
}

fn plant_via(
    alloc: Global,
    stack: &mut Vec<Certificate>,
    between: Assertion,
) -> Result<Certificate, NoMemory>
    ensures made { Makes cert_tree (planted (heads.via between)) stack.old result }
    ensures left { Takes cert_tree 2 stack.old stack.new result }
{
    let first = take_boxed(alloc, stack)?;
    let second = take_boxed(alloc, stack)?;
    Ok(Certificate::Via(between, first, second))
}

fn plant_split(
    alloc: Global,
    stack: &mut Vec<Certificate>,
    condition: Cond,
) -> Result<Certificate, NoMemory>
    ensures made { Makes cert_tree (planted (heads.split condition)) stack.old result }
    ensures left { Takes cert_tree 2 stack.old stack.new result }
{
    let first = take_boxed(alloc, stack)?;
    let second = take_boxed(alloc, stack)?;
    Ok(Certificate::Split(condition, first, second))
}

fn plant_drop_guard(alloc: Global, stack: &mut Vec<Certificate>) -> Result<Certificate, NoMemory>
    ensures made { Makes cert_tree (planted heads.drop) stack.old result }
    ensures left { Takes cert_tree 2 stack.old stack.new result }
{
    let first = take_boxed(alloc, stack)?;
    let second = take_boxed(alloc, stack)?;
    Ok(Certificate::DropGuard(first, second))
}

/// The certificate with this head, whose parts are taken off the stack.
fn plant(
    alloc: Global,
    stack: &mut Vec<Certificate>,
    made: CertHead,
) -> Result<Certificate, NoMemory>
    ensures made { Makes cert_tree (planted (head_view made)) stack.old result }
    ensures left { Takes cert_tree (arity (head_view made)) stack.old stack.new result }
{
    match made {
        CertHead::Same => Ok(Certificate::Same),
        CertHead::Via(between) => plant_via(alloc, stack, between),
        CertHead::Pick(number) => Ok(Certificate::Pick(number, take_boxed(alloc, stack)?)),
        CertHead::All(count) => Ok(Certificate::All(take_all(alloc, stack, count)?)),
        CertHead::Parts(count) => Ok(Certificate::Parts(take_all(alloc, stack, count)?)),
        CertHead::Assume => Ok(Certificate::Assume(take_boxed(alloc, stack)?)),
        CertHead::DropGuard => plant_drop_guard(alloc, stack),
        CertHead::Split(condition) => plant_split(alloc, stack, condition),
        CertHead::Contradict(items) => Ok(Certificate::Contradict(items)),
        CertHead::Arithmetic(items) => Ok(Certificate::Arithmetic(items)),
        CertHead::ByDefinition(name) => Ok(Certificate::ByDefinition(
            name,
            take_boxed(alloc, stack)?,
        )),
        CertHead::Fact(fact) => Ok(Certificate::Fact(fact, take_boxed(alloc, stack)?)),
    }
}

/// The certificate whose heads these are, each before those of its parts.
pub fn build(alloc: Global, heads: Vec<CertHead>) -> Result<Certificate, NoMemory>
    ensures { Grows certificate_walk cert_tree heads result }
{
    let mut left = heads;
    let mut stack = Vec::new(alloc);
    'heads: while let Some(made) = left.pop() {
        let tree = plant(alloc, &mut stack, made)?;
        stack.push(tree)?;
    }
    Ok(take_first(&mut stack))
}
