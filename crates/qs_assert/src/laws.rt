// Laws: functions that do nothing, for what their clauses say.
ghost use Rattle.qs_assert.specs.Laws.{ImagesGiveValues, PartsAreOfTheirVariables};
ghost use Rattle.qs_assert.specs.Variables.{IsOfItsVariables};

/// An assertion has the same value where the variables that it mentions have the same numbers.
pub fn values_are_of_their_variables()
    ensures { IsOfItsVariables }
{}

/// A term has the same number, and a condition holds
/// alike, where their variables have the same numbers.
pub fn parts_are_of_their_variables()
    ensures { PartsAreOfTheirVariables }
{}

/// What has its variables replaced by images has the value that
/// it had where each variable has the number of its image.
pub fn images_give_values()
    ensures { ImagesGiveValues }
{}
