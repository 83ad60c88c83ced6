//! What the commands of the tool share: the devices and what is written on them, the files that are
//! named, the statuses and the lines of faults, a source up to its types, and an image at the start
//! of its run; and the commands that need no more than that.
#![tactic(auto)]

mod arguments;
mod commands;
mod counts;
mod due;
mod faults;
mod files;
mod kept_output;
mod limits;
mod lines;
mod names;
mod sample_source;
mod source;
mod starting;
mod status;

pub use arguments::image_words;
pub use commands::run::run;
pub use commands::usage::usage;
pub use counts::report_count;
pub use due::{refuse, report_done, status_after};
pub use faults::shown_of;
pub use files::read_file;
pub use kept_output::KeptOutput;
pub use limits::{ELF_LIMIT, IMAGE_LIMIT, PROOF_LIMIT, SOURCE_LIMIT};
pub use lines::put_costs;
pub use names::{FileNames, nameless};
pub use qs_driver_steps::{Devices, Streams};
pub use sample_source::sample_text;
pub use source::{place, read_unit, typed_text};
pub use starting::{Ready, RunOrder, finish, loaded, read_input, stack_of};
pub use status::{FileKind, ProofFault, SourceFault, Status, TokenPlace, WordsFault};
