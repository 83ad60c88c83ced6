// The laws of the runs of a source. Each is the contract of an empty function.
ghost use Rattle.qs_meaning.specs.FitLaws.{ReadIsAsRead, TypedUnitsFit};
ghost use Rattle.qs_meaning.specs.InitialLaws.{InitialMemoryIsSound};
ghost use Rattle.qs_meaning.specs.Laws.{CallsFollow, MainGrows, RunsGrow};
ghost use Rattle.qs_meaning.specs.NineCases.{ElsewhereIsTheMeaning, MainUndefinedInNineCases};
ghost use Rattle.qs_meaning.specs.NineCases.{NoOtherPlace, UndefinedInNineCases};
ghost use Rattle.qs_meaning.specs.Ranges.{BodiesStayInRange, CallsStayInRange, ExpressionsHaveTypes};
ghost use Rattle.qs_meaning.specs.Ranges.{InitialMemoryIsReady, RunsLeaveSound};
ghost use Rattle.qs_meaning.specs.StepLaws.{StepsOnTypesAreDefined};
ghost use Rattle.qs_meaning.specs.TypedLaws.{CasesHaveValues, FunctionsTyped, TypedWhereTypes};
ghost use Rattle.qs_meaning.specs.TypedLaws.{UnitsTyped};
ghost use Rattle.qs_meaning.specs.Whole.{TypedDataIsWhole};

/// A greater bound keeps the run of a function that has ended or is undefined, and goes on from
/// where it is short.
pub fn runs_grow()
    ensures { RunsGrow }
{}

/// The same of `main` from the initial memory.
pub fn main_grows()
    ensures { MainGrows }
{}

/// A call is the run of the function alone, and then what follows.
pub fn calls_follow()
    ensures { CallsFollow }
{}

/// Where an expression has a type, it has a typed tree.
pub fn typed_where_types()
    ensures { TypedWhereTypes }
{}

/// A `case` has in the typed tree the value by which the rules on labels go.
pub fn cases_have_values()
    ensures { CasesHaveValues }
{}

/// A function that breaks no rule has a typed tree.
pub fn functions_typed()
    ensures { FunctionsTyped }
{}

/// A well typed unit has a typed tree.
pub fn units_typed()
    ensures { UnitsTyped }
{}

/// A unit that is read from tokens has nodes with different numbers, constants below 2^32, and no
/// empty list of initialisers or members.
pub fn read_is_as_read()
    ensures { ReadIsAsRead }
{}

/// The typed tree of a well typed unit within the limits fits, where the unit is as those that are
/// read.
pub fn typed_units_fit()
    ensures { TypedUnitsFit }
{}

/// The blocks that such a unit begins with hold bytes and whole pointers, and none is larger than a
/// type may be.
pub fn typed_data_is_whole()
    ensures { TypedDataIsWhole }
{}

/// The memory in which a run begins is sound: bytes are below 256, and pointers are null or into
/// blocks that are there, inside them or just past their end.
pub fn initial_memory_is_sound()
    ensures { InitialMemoryIsSound }
{}

/// In a unit whose tree fits, the values that an expression has are of its type.
pub fn expressions_have_types()
    ensures { ExpressionsHaveTypes }
{}

/// At every moment of a call in such a unit, from where it may start, variables have values of their
/// types and the memory is sound.
pub fn calls_stay_in_range()
    ensures { CallsStayInRange }
{}

/// So they do at every moment of a body.
pub fn bodies_stay_in_range()
    ensures { BodiesStayInRange }
{}

/// What a run of such a unit leaves is sound, and its result is of the function's type.
pub fn runs_leave_sound()
    ensures { RunsLeaveSound }
{}

/// On values of the types that it takes a step is undefined for one of the nine reasons alone.
pub fn steps_on_types_are_defined()
    ensures { StepsOnTypesAreDefined }
{}

/// A run of a unit whose tree fits comes to no place where the meaning has no answer, but for the
/// nine cases.
pub fn no_other_place()
    ensures { NoOtherPlace }
{}

/// So a run of an accepted unit is undefined in the nine cases alone.
pub fn undefined_in_nine_cases()
    ensures { UndefinedInNineCases }
{}

/// And so is what its `main` does, from arguments of the types of its parameters and an input of
/// bytes.
pub fn main_undefined_in_nine_cases()
    ensures { MainUndefinedInNineCases }
{}

/// The runs with which the meaning is compared are those of the meaning, where they are undefined
/// at such places.
pub fn elsewhere_is_the_meaning()
    ensures { ElsewhereIsTheMeaning }
{}

/// A run of `main` begins in a memory from which it may start, on every input of bytes.
pub fn initial_memory_is_ready()
    ensures { InitialMemoryIsReady }
{}
