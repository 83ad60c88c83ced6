// Derivations: why a function's precondition is enough.

use qs_assert::{Assertion, Define};
use qs_base::FnId;
use qs_entail::Certificate;

/// A node for each statement, and one more where a consequence is drawn.
#[cycle(derivation)]
pub enum Derivation {
    /// a statement without parts that calls no function with a body
    Leaf,
    /// a sequence, with a part for each of its parts
    Sequence(Vec<Derivation>),
    /// a conditional: its first branch, its second
    Conditional(Box<Derivation>, Box<Derivation>),
    /// a loop: its invariant, which the certificate shows to be at least what the body needs; its
    /// body, its step
    Loop(Assertion, Certificate, Box<Derivation>, Box<Derivation>),
    /// a switch, with a part for each of its parts
    Switch(Vec<Derivation>),
    /// a call, beside which the frame stays free; the certificate shows that what is free after the
    /// call is at least what comes next
    Call(Assertion, Certificate),
    /// a call of a function that gives back all that it takes
    BalancedCall,
    /// the assertion, which the certificate shows to be at least what the part needs; the part
    /// draws no consequence
    Consequence(Assertion, Certificate, Box<Derivation>),
}

// By hand, since a derived drop of a tree stands with all its cases at each place where a tree may
// be dropped.
impl Drop for Derivation {
    #[cycle(drop_derivation)]
    fn drop(self) {
        match self {
            Derivation::Leaf => {}
            Derivation::Sequence(_) => {}
            Derivation::Conditional(_, _) => {}
            Derivation::Loop(_, _, _, _) => {}
            Derivation::Switch(_) => {}
            Derivation::Call(_, _) => {}
            Derivation::BalancedCall => {}
            Derivation::Consequence(_, _, _) => {}
        }
    }
}

/// What is enough for each run of a function from arguments, besides its own cost, and what of it
/// is free again at its return.
#[derive(Drop)]
pub struct Spec {
    /// the precondition
    pub pre: Assertion,
    /// the postcondition
    pub post: Assertion,
}

/// The specification of a function, and why it holds.
#[derive(Drop)]
pub struct FunctionProof {
    /// the function
    pub function: FnId,
    /// its specification
    pub spec: Spec,
    /// that the precondition is at least what the body needs
    pub entry: Certificate,
    /// the derivation of its body
    pub body: Derivation,
}

/// Definitions, and specifications of functions.
#[derive(Drop)]
pub struct Proofs {
    /// the definitions, in order
    pub defines: Vec<Define>,
    /// the functions that have a specification
    pub functions: Vec<FunctionProof>,
}
