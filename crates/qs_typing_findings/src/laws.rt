// The laws of the names of functions and of refusals, and what each typed unit keeps. Each is the
// contract of an empty function.
ghost use Rattle.qs_types.specs.Limits.{KeepsLimits};
ghost use Rattle.qs_typing_findings.specs.LatestHeaders.{GivenBehindFronts, GivenInBodies};
ghost use Rattle.qs_typing_findings.specs.LatestHeaders.{LatestBehindFronts, LatestInBodies};
ghost use Rattle.qs_typing_findings.specs.Refusals.{FirstCausesAreTold, IsAccepted};
ghost use Rattle.qs_typing_findings.specs.TypedOf.{typed_tree};

use crate::typed_unit::TypedUnit;

/// Behind any declarations of a unit a function's name stands for its latest header (C11 6.2.1p7).
pub fn functions_are_latest()
    ensures { LatestBehindFronts }
{}

/// So it does where the body of a function begins, behind that function's own header.
pub fn functions_are_latest_in_bodies()
    ensures { LatestInBodies }
{}

/// Behind any declarations of a unit putchar and getchar have the types that they are given with.
pub fn given_functions_keep_types()
    ensures { GivenBehindFronts }
{}

/// So they have where the body of a function begins.
pub fn given_functions_keep_types_in_bodies()
    ensures { GivenInBodies }
{}

/// A cause to refuse a unit before which there is none is the one that is told.
pub fn first_causes_are_told()
    ensures { FirstCausesAreTold }
{}

impl TypedUnit {
    /// It keeps the rules, its `main` has a body, and so has each function that is called; its
    /// counts are within their limits.
    pub fn is_accepted(&self)
        ensures { IsAccepted (typed_tree self.now) }
    {}

    /// Its nodes, functions, parameters and bytes are counted, and each count is at most its limit;
    /// it has a reading.
    #[tactic(auto, using(crate::proofs::TypedLaws::keeps_limits))]
    pub fn keeps_limits(&self)
        ensures { KeepsLimits (typed_tree self.now) }
    {}
}
