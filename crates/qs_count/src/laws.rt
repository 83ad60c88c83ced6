// The laws of counts. Each is the contract of an empty function.
ghost use Rattle.qs_count.specs.Laws.{CountsBoundCalls, EntriesBoundCalls};
ghost use Rattle.qs_count.specs.Laws.{MainCountBoundsCalls, MainIsCounted};

/// Where the entries of a file are derived for calls, then for every call metric what the calls of
/// a run cost together is at most the root's cost and the value of its precondition.
pub fn entries_bound_calls()
    ensures { EntriesBoundCalls }
{}

/// So where each function of the unit costs 1, there are at most so many calls in a run.
pub fn counts_bound_calls()
    ensures { CountsBoundCalls }
{}

/// Where no function is missing, main has an entry, whose precondition bounds its runs so.
pub fn main_is_counted()
    ensures { MainIsCounted }
{}

/// The count of main at these arguments is at least the number of calls of each of its runs, if it
/// is a number.
pub fn main_count_bounds_calls()
    ensures { MainCountBoundsCalls }
{}
