// The law of tasks of a source, the contract of an empty function.
ghost use Rattle.qs_tasks_source.specs.Safe.{SourceTasksAreSafe};

/// Tasks of a source, with fixed priorities, on one stack of the sum over the levels of the greatest
/// bound of the level and the bytes of a context: they never trap, wherever the arrivals fall. What
/// each task put is a front of what the source means by its activations alone, one after the other;
/// one that has returned put all of it. No variable that two tasks touch can be written, and the
/// activations of no task alone are undefined.
pub fn source_tasks_are_safe()
    ensures { SourceTasksAreSafe }
{}
