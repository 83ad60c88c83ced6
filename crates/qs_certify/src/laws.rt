// Laws of what is certified: functions that do nothing, for what their clauses say.
ghost use Rattle.qs_certify.specs.Laws.{AddedIsRight, AddedIsWritable, AllAreDerived};
ghost use Rattle.qs_certify.specs.Laws.{BoundsAreLongestPaths, BoundsAreNeeds, CertifiedIsRight};
ghost use Rattle.qs_certify.specs.Laws.{CyclesAreTold};
ghost use Rattle.qs_certify.specs.Laws.{EntriesAreTold, EntryFaultsAreTold, FaultsAreOfFunctions};
ghost use Rattle.qs_certify.specs.Laws.{MainBoundsRuns, OneCertified, OneFillingIsEnough};
ghost use Rattle.qs_certify.specs.Laws.{OrderIsTold, RightProofsAreCertified, TextFaultsAreTold};
ghost use Rattle.qs_certify.specs.Laws.{UnitsWithoutRecursionAreCertified};

/// Where the proofs cover the unit, what main needs bounds its runs: on each input, the weight of
/// each run with these arguments is at most its cost and the value of its precondition, if that is
/// a number.
pub fn main_bounds_runs()
    ensures { MainBoundsRuns }
{}

/// A bound that is a number is what the function needs: its cost and the value of its precondition.
pub fn bounds_are_needs()
    ensures { BoundsAreNeeds }
{}

/// Without a file main's bound is the longest path of calls from main, for all costs of 32 bits: a
/// number, and never infinite or too wide.
pub fn bounds_are_longest_paths()
    ensures { BoundsAreLongestPaths }
{}

/// A file whose text has a fault, a unit with a cycle of functions without an entry, definitions
/// that have no order and an entry of the file that isn't derived are never certified, and the
/// fault that is answered tells so, want of memory aside: of an entry its function and its first
/// fault.
pub fn faults_are_told()
    ensures texts { TextFaultsAreTold }
    ensures cycles { CyclesAreTold }
    ensures order { OrderIsTold }
    ensures entries { EntriesAreTold }
    ensures entry_faults { EntryFaultsAreTold }
{}

/// What is told names functions of the unit. No fault of an entry is the want of a specification,
/// which each function has, or a definition out of order, for which is looked before.
pub fn faults_are_of_functions()
    ensures { FaultsAreOfFunctions }
{}

/// What a file gives and what it is completed to are given by the unit and the file. Without a file
/// the entry of each function is derived.
pub fn certified_is_one()
    ensures one { OneCertified }
    ensures derived { AllAreDerived }
{}

/// Want of memory alone stands in the way where no cycle is left, the definitions are in order and
/// the file's entries are derived, which one filling tells; and so it does for a unit without
/// recursion, if there is no file. All that is certified is right so.
pub fn right_proofs_are_certified()
    ensures proofs { RightProofsAreCertified }
    ensures units { UnitsWithoutRecursionAreCertified }
    ensures only { CertifiedIsRight }
    ensures one_filling { OneFillingIsEnough }
{}

/// Without a file what is certified can be written as a file: its names are symbols, its numbers
/// are in range, its lists nest at most 1,024 deep, and each has a meaning in its place.
pub fn added_is_writable()
    ensures { AddedIsWritable }
{}

/// Without a file what is certified is right as the proofs of a file: no cycle is left, its
/// definitions are in order and all its entries are derived, so that only want of memory stands in
/// the way of such a file.
pub fn added_is_right()
    ensures { AddedIsRight }
{}
