//! Explains certificates of a proof file, the first that is refused or one that the words name:
//! what is there and what is needed, the conditions that are known, the polynomials that are known
//! to be at least 0, and what a combination of these leaves over.
#![tactic(auto)]

mod certificates;
mod explaining;
mod goals;
mod page;
mod polynomials;
mod rules;
mod shapes;
mod sums;
mod words;

use explaining::explain;
use qs_driver_session::Devices;
use qs_ports::{DirStore, StdSink};
use std::alloc::Global;
use std::env::{self, Env};
use std::process::ExitCode;

// The words of the command line; none where they can't be had.
fn words_of<R: Env + AllocGlobal>(system: &R, alloc: Global) -> Option<Vec<String>> {
    let mut words = Vec::new(alloc);
    for word in env::args(system).ok()?.skip(1) {
        words.push(word).ok()?;
    }
    Some(words)
}

fn main(rt: HostRuntime) -> ExitCode {
    let alloc = rt.alloc();
    let mut out = StdSink::new(rt.stdout());
    let mut log = StdSink::new(rt.stderr());
    let words = words_of(&rt, alloc).unwrap_or(Vec::new(alloc));
    let mut store = DirStore::new(rt);
    let devices = Devices {
        store: &mut store,
        out: &mut out,
        log: &mut log,
    };
    ExitCode::from(explain(alloc, &words, devices))
}
