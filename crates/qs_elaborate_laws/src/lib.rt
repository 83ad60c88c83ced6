//! The laws of the core of whole units: it runs as the source does, fits, and has few values and
//! words.
#![tactic(auto)]

mod laws;

pub use laws::{
    acts_exactly, core_fits, core_follows, main_follows, nodes_are_of_source,
    read_units_have_names, source_words_are_few, unit_words_are_few, units_have_cores,
    values_are_few, words_are_few,
};
