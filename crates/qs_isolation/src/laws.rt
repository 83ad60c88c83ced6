// The laws of tasks. Each is the contract of an empty function.
ghost use Rattle.qs_isolation.specs.TaskRuns.{IsolatedReachesAreApart, TasksRunAlone};
ghost use Rattle.qs_isolation.specs.TaskRuns.{TasksStayInReach};

/// The functions of a task stay in what it may call and touch, and no initial pointer leads out of
/// that.
pub fn tasks_stay_in_reach()
    ensures { TasksStayInReach }
{}

/// An activation of a task is the same where all variables are hidden that it doesn't touch, and
/// leaves these as they were.
pub fn tasks_run_alone()
    ensures { TasksRunAlone }
{}

/// Of isolated tasks none keeps a variable that another does.
pub fn isolated_reaches_are_apart()
    ensures { IsolatedReachesAreApart }
{}
