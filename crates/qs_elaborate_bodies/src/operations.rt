// Operations of core, with the conversions of their operands.
ghost use Rattle.std.specs.Prelude.{◌≡◌};
ghost use Rattle.qs_core.specs.TreeOf.{core_expr};
ghost use Rattle.qs_typed_trees.specs.TreeOf.{object_tree};
ghost use Rattle.qs_meaning.specs.Fits as fits;
ghost use Rattle.qs_elaborate_bodies.specs.Expressions as spec;
ghost use Rattle.qs_elaborate_bodies.specs.CoreOf.{in_their_order, operated, updated};
ghost use Rattle.qs_elaborate_bodies.specs.Results.{Gives};

use crate::literals::converted;
use crate::parts::{binary, unary};
use qs_base::NoMemory;
use qs_core::{BlockId, CoreExpr};
use qs_memory::{BinaryOperation, Scalar, UnaryOperation, integer_type};
use qs_typed_trees::{Conversion, Object, Order};
use std::alloc::Global;

/// The block of an object.
pub fn block_of(o: Object) -> BlockId
    ensures { result ≡ spec.block_of (object_tree o) }
{
    match o {
        Object::Local(k) => BlockId::Local(k),
        Object::Static(k) => BlockId::Data(k),
    }
}

fn in_their_order(
    alloc: Global,
    operation: BinaryOperation,
    order: Order,
    a: CoreExpr,
    b: CoreExpr,
) -> Result<CoreExpr, NoMemory>
    ensures { Gives (in_their_order operation order a b) result }
{
    match order {
        Order::AsWritten => binary(alloc, operation, a, b),
        Order::Exchanged => binary(alloc, operation, b, a),
    }
}

/// An operation on two values, each converted before.
pub fn operated(
    alloc: Global,
    operation: BinaryOperation,
    order: Order,
    left: Conversion,
    right: Conversion,
    a: CoreExpr,
    b: CoreExpr,
) -> Result<CoreExpr, NoMemory>
    ensures { Gives (operated operation order left right a b) result }
{
    let a = converted(alloc, left, a)?;
    let b = converted(alloc, right, b)?;
    in_their_order(alloc, operation, order, a, b)
}

/// What a compound assignment writes.
pub fn updated(
    alloc: Global,
    operation: BinaryOperation,
    left: Conversion,
    right: Conversion,
    back: Conversion,
    a: CoreExpr,
    b: CoreExpr,
) -> Result<CoreExpr, NoMemory>
    ensures { Gives (updated operation left right back a b) result }
{
    let c = operated(alloc, operation, Order::AsWritten, left, right, a, b)?;
    converted(alloc, back, c)
}

fn amount_type(operation: BinaryOperation) -> Scalar
    ensures { result ≡ fits.amount_type operation }
{
    match operation {
        BinaryOperation::Arithmetic(_, s) => integer_type(s),
        BinaryOperation::Compare(_, s) => integer_type(s),
        BinaryOperation::Move(_, s, _) => integer_type(s),
        BinaryOperation::Difference(_) => Scalar::Int,
        BinaryOperation::ComparePointers(_) => Scalar::Int,
    }
}

/// The amount of a step.
pub fn step_amount(operation: BinaryOperation) -> CoreExpr
    ensures { core_expr result ≡ spec.step_amount operation }
{
    CoreExpr::Literal(amount_type(operation), 1)
}

/// Whether a value differs from 0.
pub fn truth(alloc: Global, a: CoreExpr) -> Result<CoreExpr, NoMemory>
    ensures { Gives (spec.truth_core (core_expr a)) result }
{
    unary(alloc, UnaryOperation::Truth, a)
}
