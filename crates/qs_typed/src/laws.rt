// The laws of trees that are found by the numbers of nodes. Each is the contract of an empty
// function.
ghost use Rattle.qs_typed.specs.BlockLaws.{UnitBlocksAreTyped};
ghost use Rattle.qs_typed.specs.Laws.{ExpressionsAreTyped, FunctionsAreTyped, StatementsAreTyped};
ghost use Rattle.qs_typed.specs.UnitLaws.{UnitFunctionsAreTyped, UnitVariablesAreKnown};

/// Where an expression has a typed tree, what is known at its nodes gives the same one.
pub fn expressions_are_typed()
    ensures { ExpressionsAreTyped }
{}

/// Where statements have typed trees, what is known at their nodes gives the same ones.
pub fn statements_are_typed()
    ensures { StatementsAreTyped }
{}

/// Where a function has a typed tree, what is known at its nodes gives the same one.
pub fn functions_are_typed()
    ensures { FunctionsAreTyped }
{}

/// The functions that tables of a well typed unit give are those of its typed tree.
pub fn unit_functions_are_typed()
    ensures { UnitFunctionsAreTyped }
{}

/// The variables of functions that tables of a well typed unit give are those of the definition.
pub fn unit_variables_are_known()
    ensures { UnitVariablesAreKnown }
{}

/// The blocks that tables of a well typed unit give, with those of its texts, are those of its
/// typed tree.
pub fn unit_blocks_are_typed()
    ensures { UnitBlocksAreTyped }
{}
