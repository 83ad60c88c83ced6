// The laws of linear code. Each is the contract of an empty function.
ghost use Rattle.qs_tac.specs.Laws.{LinearCodeGrows, PlacesKeepRuns};

/// More steps keep what has ended or is undefined, and extend the trace of what goes on.
pub fn linear_code_grows<S>()
    ensures { LinearCodeGrows S }
{}

/// A unit whose values stand in places that are accepted does what it does with them in
/// temporaries.
pub fn places_keep_runs()
    ensures { PlacesKeepRuns }
{}
