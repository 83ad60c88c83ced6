// Faults on the way from a node to the body.
ghost use Rattle.std.specs.Prelude.{[], Err};
ghost use Rattle.qs_triples.specs.Rules as rules;
ghost use Rattle.qs_triples.specs.Rules.{Answer};
ghost use Rattle.qs_triples.specs.Told.{fault_at, FailsAs, Follows};

use crate::failure::{Cause, Failure};
use qs_assert::Assertion;
use std::alloc::Global;

/// A fault at this node.
pub fn failed(alloc: Global, cause: Cause) -> Failure
    ensures { FailsAs result (Err (fault_at [] cause)) }
{
    Failure::Fault(Vec::new(alloc), cause)
}

/// A fault of part i.
pub fn below(i: usize, failure: Failure) -> Failure
    ensures { (answer : Answer) → FailsAs failure answer → FailsAs result (rules.part i answer) }
{
    match failure {
        Failure::NoMemory => Failure::NoMemory,
        Failure::Fault(mut path, cause) => match path.push(i) {
            Ok(()) => Failure::Fault(path, cause),
            Err(_) => Failure::NoMemory,
        },
    }
}

/// The answer of part i.
pub fn part(i: usize, answer: Result<Assertion, Failure>) -> Result<Assertion, Failure>
    ensures { (due : Answer) → Follows answer due → Follows result (rules.part i due) }
{
    match answer {
        Ok(a) => Ok(a),
        Err(failure) => Err(below(i, failure)),
    }
}
