// What core says of a function beside what its typed tree says: the names of its parameters and
// variables.

use qs_base::Name;

/// A parameter or a variable that a function declares.
#[derive(Drop)]
pub struct Declared {
    /// its node
    pub node: u32,
    /// its name
    pub name: Name,
}

/// A variable is the one with this number, from 1, among those that the function declares with its
/// name.
#[derive(Drop)]
pub struct VariableName {
    /// its name
    pub name: Name,
    /// its number
    pub ordinal: u32,
}

/// The names of a function's parameters in order, and of its variables by their numbers.
#[derive(Drop)]
pub struct FunctionNames {
    /// the parameters
    pub parameters: Vec<Name>,
    /// the variables
    pub variables: Vec<VariableName>,
}
