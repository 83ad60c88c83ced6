//! From a source to an image: what the image of a unit of core is, that it does what the unit
//! does, and how it is built; and that of every source, over its core.
#![tactic(auto)]

mod building;
mod compiling;
mod data;
mod fault;
mod laws;
mod parameters;
mod records;

pub use building::build_image;
pub use compiling::{compile, compile_core};
pub use fault::BuildFault;
pub use laws::{
    accounts_go_through, agreement_goes_through, built_images_are_compiled, images_do_as_core,
    names_are_of_the_text, small_units_pass_no_size, units_pass_no_size,
};
