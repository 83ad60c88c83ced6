// The laws of layouts, constants, rules and limits. Each is the contract of an empty function.
ghost use Rattle.qs_types.specs.ConstantLaws.{ConstantsHaveTypes};
ghost use Rattle.qs_types.specs.LayoutLaws.{Rounds, SizesAligned, StructsLaidOut};
ghost use Rattle.qs_types.specs.UnitLaws.{LimitsAreKept, RulesAreKept};

/// Each struct is laid out as the types of its members ask.
pub fn structs_laid_out()
    ensures { StructsLaidOut }
{}

/// The size of each type is a multiple of its alignment.
pub fn sizes_aligned()
    ensures { SizesAligned }
{}

/// What is rounded up is the least multiple that isn't below.
pub fn rounds()
    ensures { Rounds }
{}

/// A constant expression that has a type has an integer type, and `unsigned` exactly where its
/// operands say so (C11 6.6).
pub fn constants_have_types()
    ensures { ConstantsHaveTypes }
{}

/// A unit keeps the rules exactly where no node violates one.
pub fn rules_are_kept()
    ensures { RulesAreKept }
{}

/// A unit that has a reading passes no limit exactly where each of its counts is at most its limit.
pub fn limits_are_kept()
    ensures { LimitsAreKept }
{}
