//! What there is of a unit apart from its bodies: its tables and headers, the places of its locals,
//! and what stands in memory when a run begins.
#![tactic(auto)]

mod addressed;
mod cells;
mod constants;
mod contents;
mod function_headers;
mod locals;
mod places;
mod static_data;
mod tables;

pub use addressed::statements_addressed;
pub use function_headers::headers;
pub use locals::{parameters, parameters_nodes, statements_nodes};
pub use places::{insert, places_of, scalars, sizes};
pub use static_data::blocks;
pub use tables::{Tables, each_once, file_variables_in, functions_in, nodes_of};
