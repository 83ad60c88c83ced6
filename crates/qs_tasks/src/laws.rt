// The law of tasks, the contract of an empty function.
ghost use Rattle.qs_tasks.specs.Safe.{TasksAreSafe};

/// Tasks with fixed priorities, on one stack of the sum over the levels of the greatest bound of the
/// level and the bytes of a context, never trap, wherever the arrivals fall. What each task put is
/// what its activations put alone, one after the other, as far as they came; one that has returned
/// put all of it. The tasks are isolated, and no activation alone is undefined.
pub fn tasks_are_safe()
    ensures { TasksAreSafe }
{}
