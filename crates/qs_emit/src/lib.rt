//! Images of linear code: what one is, and that the machine does with it what the linear code does,
//! on every stack that has the weight of the run.
#![tactic(auto)]

mod emission;
mod laws;

pub use emission::emit;
pub use laws::{
    blocks_apart_have_owners, code_is_short, emitted_code_follows, emitted_code_follows_from_start,
    images_follow, lying_blocks_dont_meet, watching_leads, watching_refines, watching_steps,
};
