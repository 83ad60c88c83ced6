// What assignments and steps write, and values that are discarded.
ghost use Rattle.std.specs.Prelude.{[], ◌∷◌};
ghost use Rattle.qs_elaborate_bodies.specs.CoreOf.{written, write_pointed, write_valued, step};
ghost use Rattle.qs_elaborate_bodies.specs.Results.{Adds, Leaves, Gives};

use crate::operations::{step_amount, updated};
use crate::parts::{Location, new_temporary, push, push_keep, value_at, written};
use qs_base::NoMemory;
use qs_core::{CoreExpr, CoreStmt, Target};
use qs_memory::{BinaryOperation, Scalar};
use qs_typed_trees::Conversion;
use std::alloc::Global;

/// What is written where.
#[derive(Drop)]
pub struct Written {
    /// as a value of this type
    pub scalar: Scalar,
    /// where
    pub location: Location,
    /// the value
    pub value: CoreExpr,
}

// Stores a value that is used again.
fn write_pointed(
    out: &mut Vec<CoreStmt>,
    ts: &mut Vec<Scalar>,
    s: Scalar,
    p: CoreExpr,
    a: CoreExpr,
) -> Result<CoreExpr, NoMemory>
    ensures statements { Adds (write_pointed s p a ts.old).statements out.old out.new result }
    ensures value { Gives (write_pointed s p a ts.old).value result }
    ensures temporaries { Leaves (write_pointed s p a ts.old).temporaries ts.new result }
{
    let k = new_temporary(ts, s)?;
    push_keep(out, k, a)?;
    push(out, CoreStmt::Store(s, p, CoreExpr::Temporary(s, k)))?;
    Ok(CoreExpr::Temporary(s, k))
}

/// An assignment whose value is used.
pub fn write_valued(
    out: &mut Vec<CoreStmt>,
    ts: &mut Vec<Scalar>,
    w: Written,
) -> Result<CoreExpr, NoMemory>
    ensures statements { Adds (write_valued w ts.old).statements out.old out.new result }
    ensures value { Gives (write_valued w ts.old).value result }
    ensures temporaries { Leaves (write_valued w ts.old).temporaries ts.new result }
{
    let Written {
        scalar,
        location,
        value,
    } = w;
    match location {
        Location::Plain(x) => {
            push(out, CoreStmt::Assign(Target::Variable(x), value))?;
            Ok(CoreExpr::Variable(scalar, x))
        }
        Location::Pointed(p) => write_pointed(out, ts, scalar, p, value),
    }
}

/// An assignment whose value is discarded.
pub fn write_discarded(out: &mut Vec<CoreStmt>, w: Written) -> Result<(), NoMemory>
    ensures { Adds (written w ∷ []) out.old out.new result }
{
    push(out, written(w.scalar, w.location, w.value))
}

/// `l++` or `l--` where the value before is used.
pub fn step_valued(
    alloc: Global,
    out: &mut Vec<CoreStmt>,
    ts: &mut Vec<Scalar>,
    s: Scalar,
    op: BinaryOperation,
    left: Conversion,
    back: Conversion,
    at: Location,
) -> Result<CoreExpr, NoMemory>
    ensures statements { Adds (step s op left back at ts.old).statements out.old out.new result }
    ensures value { Gives (step s op left back at ts.old).value result }
    ensures temporaries { Leaves (step s op left back at ts.old).temporaries ts.new result }
{
    let k = new_temporary(ts, s)?;
    let old = value_at(alloc, s, &at)?;
    push_keep(out, k, old)?;
    let kept = CoreExpr::Temporary(s, k);
    let amount = step_amount(op);
    let unchanged = Conversion::Unchanged;
    let new = updated(alloc, op, left, unchanged, back, kept, amount)?;
    push(out, written(s, at, new))?;
    Ok(CoreExpr::Temporary(s, k))
}
