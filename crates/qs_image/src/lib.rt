//! The image: a compiled program as bytes, read and written exactly.
#![tactic(auto)]

mod fault;
mod image;
mod limits;
mod reading;
mod records;
mod sections;
mod version;
mod view;
mod word;
mod writing;

pub use fault::{HeaderWord, ImageFault};
pub use image::{FunctionRecord, Image};
pub use limits::{LARGEST_COST, MOST_CODE_WORDS, MOST_DATA_BYTES, MOST_FUNCTIONS, MOST_NAME_BYTES};
pub use reading::read;
pub use records::RecordView;
pub use view::ImageView;
pub use writing::write;
