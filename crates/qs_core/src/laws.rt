// The laws of core. Each is the contract of an empty function.
ghost use Rattle.qs_core.specs.Laws.{CoreGrows, CallsAlone};
ghost use Rattle.qs_core.specs.Nesting.{JoinedNest};
ghost use Rattle.qs_core.specs.Ranges.{BodiesStayInRange, CallsStayInRange, ExpressionsHaveTypes};
ghost use Rattle.qs_core.specs.Ranges.{InitialMemoryIsReady, RunsLeaveSound};

/// A greater bound keeps what has ended or is undefined, and extends the trace of what is short.
pub fn core_grows()
    ensures { CoreGrows }
{}

/// A call is the call alone, and then what follows.
pub fn calls_alone()
    ensures { CallsAlone }
{}

/// The value of an expression has the expression's type.
pub fn expressions_have_types()
    ensures { ExpressionsHaveTypes }
{}

/// Each moment of a call is in range: every variable's value is in the range of its type, and what
/// would follow at other moments makes no difference.
pub fn calls_stay_in_range()
    ensures { CallsStayInRange }
{}

/// The same of a part of a body.
pub fn bodies_stay_in_range()
    ensures { BodiesStayInRange }
{}

/// What a run leaves is sound, and its result is one of the function's type: another run may start
/// there.
pub fn runs_leave_sound()
    ensures { RunsLeaveSound }
{}

/// The memory that main starts from is sound, and its blocks are the unit's data.
pub fn initial_memory_is_ready()
    ensures { InitialMemoryIsReady }
{}

/// Statements one list after the other nest as deep as those of one of them.
#[tactic(auto, using(crate::proofs::JoinedLaws::joined_nest))]
pub fn joined_nest()
    ensures { JoinedNest }
{}
