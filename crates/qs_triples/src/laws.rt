// The laws of derivations. Each is the contract of an empty function.
ghost use Rattle.qs_triples.specs.Laws.{DerivationsBoundRuns};

/// Where the entries cover the unit, the weight of every run is at most its root's cost and the
/// value of the root's precondition at the arguments, for every stack metric.
pub fn derivations_bound_runs()
    ensures { DerivationsBoundRuns }
{}
