//! What a run does that can be seen: its events, how it ends, and what its trace weighs on the stack
//! or counts in calls.
//! Definitions and their laws; nothing here runs.
#![tactic(auto)]

mod laws;

pub use laws::{
    bounded_is_seen, calls_are_counted, joined_traces_weigh, longer_runs_weigh_more, runs_follow,
    runs_grow, weight_is_greatest,
};
