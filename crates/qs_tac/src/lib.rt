//! Linear code: instructions over numbered temporaries, with jumps to their indices; what they mean
//! over whatever holds the values of the temporaries, which places hold them, and what holds of
//! every unit.
#![tactic(auto)]

mod instruction;
mod laws;
mod operands;
mod places;
mod unit;
mod units;
mod uses;

pub use instruction::Instruction;
pub use laws::{linear_code_grows, places_keep_runs};
pub use operands::{Address, Condition, Index, Operand, is_constant};
pub use places::{Place, Places};
pub use unit::TacUnit;
pub use units::{TacData, TacFunction};
