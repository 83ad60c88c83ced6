//! The lines that the tool prints: what it has done, how a run ended, and its faults. Each line is
//! there as bytes, and as a text that is put on a sink, which takes no memory.
#![tactic(auto)]

mod derivation_faults;
mod fault_texts;
mod faults;
mod lines;
mod parts;
mod results;
mod taking;
mod words;

pub use derivation_faults::{put_cycle, put_proof_fault};
pub use fault_texts::{Count, ElfText, FaultText, Path, ProofFileText, ProofText, Shown, Spot};
pub use faults::{put_arg_count, put_arg_range, put_fault};
pub use lines::{bound_line, calls_line, cost_line, count_line, end_line, fault_line};
pub use parts::put_two;
pub use qs_types::LimitKind;
pub use results::{put_bound, put_calls, put_cost, put_count, put_end, put_shown};
