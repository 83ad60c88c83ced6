// What names stand for (C11 6.2.1, 6.2.3).
use qs_base::Name;
use qs_types::CType;

/// The types of a function's parameters and of its result (C11 6.7.6.3).
#[derive(Drop)]
pub struct Signature {
    /// The types of the parameters.
    pub parameters: Vec<CType>,
    /// The type of the result.
    pub result: CType,
}

/// A declaration, by the number of its node; no type where the declaration breaks a rule on types.
#[derive(Drop)]
pub enum Entity {
    /// A variable or parameter of a function.
    LocalVariable(u32, Option<CType>),
    /// A variable at file scope.
    FileVariable(u32, Option<CType>),
    /// A function of the unit.
    Function {
        /// The node of its latest header.
        node: u32,
        /// Its type.
        signature: Option<Signature>,
        /// Whether a body was given.
        has_body: bool,
    },
    /// `putchar` or `getchar`.
    Given(Signature),
}

/// A name, what it stands for, and the place of the declaration that it hides.
#[derive(Drop)]
pub struct Binding {
    pub name: Name,
    pub entity: Entity,
    pub hidden: Option<usize>,
}
