// That core runs as the source does, that it fits, and that its values and words are few. Each law
// is the contract of an empty function.
ghost use Rattle.qs_elaborate_bodies.specs.Laws.{ActsExactly, CoreFollows, MainFollows};
ghost use Rattle.qs_elaborate_laws.specs.FitLaws.{CoreFits, ReadUnitsHaveNames, UnitsHaveCores};
ghost use Rattle.qs_elaborate_laws.specs.SizeLaws.{ValuesAreFew, WordsAreFew, UnitWordsAreFew};
ghost use Rattle.qs_elaborate_laws.specs.SizeLaws.{NodesAreOfSource, SourceWordsAreFew};

// ---- runs

/// An expression acts exactly where it has statements in core.
pub fn acts_exactly()
    ensures { ActsExactly }
{}

/// Core runs as the source does: the same result, events, memory and input left, within each bound,
/// for each root function, arguments, memory and input.
pub fn core_follows()
    ensures { CoreFollows }
{}

/// The same of `main` from the initial memory, whose blocks are bytes and whole pointers.
pub fn main_follows()
    ensures { MainFollows }
{}

// ---- core as a unit

/// The core of a typed tree that fits, with names for its functions and variables, is a unit of
/// core that fits: operations are on operands of the types that they take, and what is numbered is
/// there.
pub fn core_fits()
    ensures { CoreFits }
{}

/// A well typed unit has a core, which fits and runs as the unit does. So core_follows and
/// main_follows are said of the core that each such unit has, from every root and from main.
pub fn units_have_cores()
    ensures { UnitsHaveCores }
{}

/// The names of a unit that is read are names of the language.
pub fn read_units_have_names()
    ensures { ReadUnitsHaveNames }
{}

// ---- sizes

/// A function of core needs few values: one for each variable of its source, parameters among them,
/// and two for each expression in its body.
pub fn values_are_few()
    ensures { ValuesAreFew }
{}

/// The bound on the words of a function's machine code is at most 24 for each node of its source,
/// and 32.
pub fn words_are_few()
    ensures { WordsAreFew }
{}

/// The same of all functions of a unit that has a main, with the words before main is entered and
/// after it returns.
pub fn unit_words_are_few()
    ensures { UnitWordsAreFew }
{}

/// The nodes that are counted on the typed tree of a well typed unit are at most those of the unit.
pub fn nodes_are_of_source()
    ensures { NodesAreOfSource }
{}

/// The bound on the words of the machine code of a well typed unit that has a main is at most 24
/// for each node of the unit, and 32 for each of its functions with a body.
pub fn source_words_are_few()
    ensures { SourceWordsAreFew }
{}
