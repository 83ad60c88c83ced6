//! Work of the logic at its limits, for `bench/logic.sh`: products of polynomials of 64 terms,
//! certificates of 10,000 nodes, and a term of 20,000 levels. A line tells for each whether the answer was as
//! it must be.
#![tactic(auto)]

mod certificates;
mod depth;
mod products;

use certificates::{are_chains_accepted, are_parts_accepted};
use depth::are_deep_terms_accepted;
use products::are_products_refused;
use qs_ports::{Sink, SinkFault, StdSink, put_all};
use std::process::ExitCode;

// Puts a name and what came of it.
fn put_line<O: Sink>(out: &mut O, name: &[u8], answer: Option<bool>) -> Result<(), SinkFault> {
    put_all(out, name)?;
    match answer {
        Some(true) => put_all(out, b" done\n"),
        Some(false) => put_all(out, b" another answer\n"),
        None => put_all(out, b" out of memory\n"),
    }
}

fn main(rt: HostRuntime) -> ExitCode {
    let alloc = rt.alloc();
    let mut out = StdSink::new(rt.stdout());
    let products = put_line(&mut out, b"products", are_products_refused(alloc));
    let parts = put_line(&mut out, b"parts", are_parts_accepted(alloc));
    let chains = put_line(&mut out, b"chains", are_chains_accepted(alloc));
    let depth = put_line(&mut out, b"depth", are_deep_terms_accepted(alloc));
    if products.is_ok() && parts.is_ok() && chains.is_ok() && depth.is_ok() {
        ExitCode::from(0)
    } else {
        ExitCode::from(1)
    }
}
