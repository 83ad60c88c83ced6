//! The words of the command line, and the command that they mean.
#![tactic(auto)]

mod commands;
mod flat;
mod numbers;
mod reading;
mod spelling;
mod table;
mod values;

pub use commands::{CallsWords, CliFault, Command, ElfWords, UnelfWords};
pub use numbers::{DEFAULT_STEPS, MOST_ARGUMENTS, MOST_SAMPLE_FUNCTIONS, MOST_STEPS};
pub use reading::read_words;
