//! Exact polynomials with whole coefficients over atoms: variables, costs of functions, and num,
//! div, wrapu, wraps and bits of a polynomial.
#![tactic(auto)]

mod atom;
mod code;
mod fault;
mod laws;
mod monomial;
mod node;
mod poly;
mod sums;
mod terms;

pub use atom::Atom;
pub use fault::PolyFault;
pub use laws::polynomials_are_exact;
pub use node::Node;
pub use poly::Poly;
