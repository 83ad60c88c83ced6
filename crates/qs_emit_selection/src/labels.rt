// The labels of functions and instructions.
ghost use Rattle.std.specs.Prelude.{◌≡◌, IfOk};
ghost use Rattle.qs_emit_selection.specs.ContextOf.{labels_tree};

use crate::context::FunctionContext;
use qs_base::{FnId, NoMemory, sum};

/// The label of a function's entry.
pub fn function_label(c: &FunctionContext, f: FnId) -> u32
    ensures { result ≡ (labels_tree c.now).function f.0 }
{
    c.labels.start(f.0)
}

/// The label of the instruction at this index.
pub fn instruction_label(c: &FunctionContext, k: u32) -> Result<u32, NoMemory>
    ensures { IfOk result (λ label. label ≡ (labels_tree c.now).instruction k) }
{
    sum(sum(c.labels.start(c.number), 1)?, k)
}
