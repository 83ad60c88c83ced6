//! Instruction selection: what each instruction of linear code becomes in machine code, and in how
//! many words.
#![tactic(auto)]

mod addresses;
mod arguments;
mod branches;
mod calls;
mod context;
mod entry;
mod fault;
mod functions;
mod immediates;
mod instructions;
mod labels;
mod laws;
mod limits;
mod mnemonics;
mod objects;
mod operands;
mod operations;
mod pieces;
mod selection;

pub use fault::SelectionFault;
pub use laws::{
    functions_keep_words, unit_labels_count_up, units_keep_words, what_is_selected_are_words,
    words_are_kept,
};
pub use selection::{check_fits, data_sizes, first_labels, select};
