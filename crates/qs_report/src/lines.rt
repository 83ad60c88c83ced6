// The lines as bytes.
ghost use Rattle.std.specs.Prelude.{◌≡◌, IfOk};
ghost use Rattle.qs_report.specs.Lines as meant;

use crate::taking::Taking;
use crate::{
    Count, FaultText, Shown, put_bound, put_calls, put_cost, put_count, put_end, put_fault,
};
use qs_base::NoMemory;
use std::alloc::Global;

/// The line `cost NAME N` of a function and its cost in bytes of stack.
pub fn cost_line(alloc: Global, name: &[u8], cost: u32) -> Result<Vec<u8>, NoMemory>
    ensures { IfOk result (λ line. line.items ≡ meant.cost_line name.now cost) }
{
    let mut line = Taking::new(alloc);
    let put = put_cost(&mut line, name, cost);
    line.line(put)
}

/// The line `bound N`, `bound infinite` or `bound wide`.
pub fn bound_line(alloc: Global, bound: Shown) -> Result<Vec<u8>, NoMemory>
    ensures { IfOk result (λ line. line.items ≡ meant.bound_line bound) }
{
    let mut line = Taking::new(alloc);
    let put = put_bound(&mut line, bound);
    line.line(put)
}

/// The line `calls N`, `calls infinite` or `calls wide`.
pub fn calls_line(alloc: Global, bound: Shown) -> Result<Vec<u8>, NoMemory>
    ensures { IfOk result (λ line. line.items ≡ meant.calls_line bound) }
{
    let mut line = Taking::new(alloc);
    let put = put_calls(&mut line, bound);
    line.line(put)
}

/// The line `exit S` of a program that ended with this status.
pub fn end_line(alloc: Global, status: u8) -> Result<Vec<u8>, NoMemory>
    ensures { IfOk result (λ line. line.items ≡ meant.end_line status) }
{
    let mut line = Taking::new(alloc);
    let put = put_end(&mut line, status);
    line.line(put)
}

/// The line of a count: `checked A derived B`, `derived B`, `functions F` or `output B`.
pub fn count_line(alloc: Global, count: Count) -> Result<Vec<u8>, NoMemory>
    ensures { IfOk result (λ line. line.items ≡ meant.count_line count) }
{
    let mut line = Taking::new(alloc);
    let put = put_count(&mut line, count);
    line.line(put)
}

/// The line of a fault. The file and the function or definition have these names in it, where it
/// has them.
pub fn fault_line(
    alloc: Global,
    file: &[u8],
    name: &[u8],
    fault: &FaultText,
) -> Result<Vec<u8>, NoMemory>
    ensures { IfOk result (λ line. line.items ≡ meant.fault_line file.now name.now fault.now) }
{
    let mut line = Taking::new(alloc);
    let put = put_fault(&mut line, file, name, fault);
    line.line(put)
}
