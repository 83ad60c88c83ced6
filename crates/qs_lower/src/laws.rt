// The laws of lowering. Each is the contract of an empty function.
ghost use Rattle.qs_lower.specs.Laws.{LoweredFits, LoweringFollows};
ghost use Rattle.qs_lower.specs.WordLaws.{LoweredSizesAreKept};

/// The runs of linear code follow those of the core that it is made of, and back.
pub fn lowering_follows()
    ensures { LoweringFollows }
{}

/// The linear code of a unit of core is a unit of linear code.
pub fn lowered_fits()
    ensures { LoweredFits }
{}

/// The linear code of a function has at most the values of its core, and where what it holds of
/// expressions is in reach, at most its words; so have units.
pub fn lowered_sizes_are_kept()
    ensures { LoweredSizesAreKept }
{}
