//! Items of assembly: instructions, labels, and jumps and branches to labels; and their words.
#![tactic(auto)]

mod assembly;
mod fault;
mod item;
mod labels;
mod laws;
mod sized_item;
mod sizing;

pub use assembly::assemble;
pub use fault::AssemblyFault;
pub use item::Item;
pub use labels::Labels;
pub use laws::{
    counted_items_are_assembled, items_are_laid_one_after_the_other, items_take_their_words,
};
pub use sizing::label_offsets;
