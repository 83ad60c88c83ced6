// Tests of nodes, and what they and the types of the parts say of an expression.
ghost use Rattle.std.specs.Prelude.{◌≡◌, IfOk, not};
ghost use Rattle.qs_typing_findings.specs.JudgedOf.{IsJudged, test_tree};

use qs_base::NoMemory;
use qs_types::{CType, Rule};
use std::alloc::Global;

/// Whether a node breaks a rule.
#[derive(Clone, Copy)]
pub struct Test {
    /// The rule.
    pub rule: Rule,
    /// Whether it is broken.
    pub breaks: bool,
}

/// A test that tells whether a rule is broken.
pub fn violates(rule: Rule, breaks: bool) -> Test
    ensures { test_tree result ≡ record { rule = rule; breaks = breaks } }
{
    Test { rule, breaks }
}

/// A test that tells whether a rule is kept.
pub fn keeps(rule: Rule, holds: bool) -> Test
    ensures { test_tree result ≡ record { rule = rule; breaks = not holds } }
{
    Test {
        rule,
        breaks: !holds,
    }
}

/// The tests of an expression whose parts have types, and the type that it has where it breaks none
/// of their rules.
#[derive(Drop)]
pub struct Judged {
    /// The tests.
    pub tests: Vec<Test>,
    /// The type.
    pub of: CType,
}

/// These tests, and this type.
pub fn with_tests(alloc: Global, tests: &[Test], of: CType) -> Result<Judged, NoMemory>
    ensures { IfOk result (IsJudged tests.now of) }
{
    Ok(Judged {
        tests: Vec::from_slice(alloc, tests)?,
        of,
    })
}
