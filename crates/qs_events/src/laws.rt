// The laws of runs, traces and weights. Each is the contract of an empty function.
ghost use Rattle.qs_events.specs.Laws.{RunsGrow, LongerRunsWeighMore, RunsFollow, BoundedIsSeen};
ghost use Rattle.qs_events.specs.Laws.{WeightIsGreatest, JoinedTracesWeigh, CallsAreCounted};

/// A greater bound keeps what has ended or is undefined, and extends the trace of what is short.
pub fn runs_grow<End>()
    ensures { RunsGrow End }
{}

/// A longer run weighs no less.
pub fn longer_runs_weigh_more<End>()
    ensures { LongerRunsWeighMore End }
{}

/// A run goes on with what follows it.
pub fn runs_follow<A, B, C>()
    ensures { RunsFollow A B C }
{}

/// The weight of a trace is the greatest sum over its fronts.
pub fn weight_is_greatest()
    ensures { WeightIsGreatest }
{}

/// What two traces weigh, one behind the other.
pub fn joined_traces_weigh()
    ensures { JoinedTracesWeigh }
{}

/// Where each call costs 1, what the calls of a trace cost together is how many they are.
pub fn calls_are_counted()
    ensures { CallsAreCounted }
{}

/// Agreement sees the events of a run and how it ends.
pub fn bounded_is_seen<End>()
    ensures { BoundedIsSeen End }
{}
