// The laws of hidden memory. Each is the contract of an empty function.
ghost use Rattle.qs_hiding.specs.Hidden.{HidingKeepsRuns};

/// A run is the same where the blocks that it can't touch are hidden, and leaves these as they were.
pub fn hiding_keeps_runs()
    ensures { HidingKeepsRuns }
{}
