// Functions and units of the typed tree (C11 6.9).

use crate::data::StaticBlock;
use crate::statements::Statement;
use qs_base::Name;
use qs_calls::Parameter;
use qs_memory::Scalar;

/// A function with a body (C11 6.9.1).
#[derive(Drop)]
pub struct TypedFunction {
    /// its name
    pub name: Name,
    /// the type of its result, if it has one
    pub result: Option<Scalar>,
    /// where the arguments go
    pub parameters: Vec<Parameter>,
    /// the types of its variables: the parameters, placed ones too, and then the plain locals
    pub variables: Vec<Scalar>,
    /// the sizes of its placed locals and parameters
    pub blocks: Vec<u32>,
    /// the statements of its body
    pub body: Vec<Statement>,
    /// whether it is `main`
    pub is_main: bool,
}

/// A unit.
#[derive(Drop)]
pub struct TypedProgram {
    /// the functions with a body, in order
    pub functions: Vec<TypedFunction>,
    /// the file-scope variables and then the texts, in order
    pub blocks: Vec<StaticBlock>,
}
