// Parts of what expressions give in core: statements, temporaries, and where values stand.
ghost use Rattle.std.specs.Prelude.{◌≡◌, [], ◌∷◌, IfOk};
ghost use Rattle.qs_core.specs.TreeOf.{core_expr, core_stmt, core_stmts};
ghost use Rattle.qs_core.specs.Trees as core;
ghost use Rattle.qs_elaborate_bodies.specs.LocationOf.{location_of};
ghost use Rattle.qs_elaborate_bodies.specs.Parts as spec;
ghost use Rattle.qs_elaborate_bodies.specs.CoreOf.{chosen, in_temporary, saved, saved_if, branched};
ghost use Rattle.qs_elaborate_bodies.specs.Results.{Adds, Leaves, Gives};

use crate::copies::copy_expr;
use crate::literals::is_literal;
use qs_base::NoMemory;
use qs_core::{CoreExpr, CoreStmt, Operands, Target, type_of};
use qs_memory::{BinaryOperation, Scalar, UnaryOperation};
use std::alloc::Global;

// ---- lists

/// One more statement.
pub fn push(out: &mut Vec<CoreStmt>, s: CoreStmt) -> Result<(), NoMemory>
    ensures { Adds (core_stmt s ∷ []) out.old out.new result }
{
    out.push(s)?;
    Ok(())
}

/// A list as one statement.
pub fn one_statement(mut list: Vec<CoreStmt>) -> CoreStmt
    ensures { core_stmt result ≡ spec.one_statement (core_stmts list.items) }
{
    if list.len() == 1
        && let Some(s) = list.pop()
    {
        return s;
    }
    if list.is_empty() {
        return CoreStmt::Skip;
    }
    CoreStmt::Seq(list)
}

/// An `if`.
pub fn push_branch(
    alloc: Global,
    out: &mut Vec<CoreStmt>,
    condition: CoreExpr,
    met: CoreStmt,
    unmet: CoreStmt,
) -> Result<(), NoMemory>
    ensures { Adds (branched condition met unmet ∷ []) out.old out.new result }
{
    let met = Box::new(alloc, met)?;
    let unmet = Box::new(alloc, unmet)?;
    push(out, CoreStmt::If(condition, met, unmet))
}

// ---- temporaries

/// One more temporary, of this type: its number. A function has fewer than 2 ^ 32.
pub fn new_temporary(ts: &mut Vec<Scalar>, s: Scalar) -> Result<u32, NoMemory>
    ensures number { IfOk result (λ k. k ≡ spec.next_number ts.old.items) }
    ensures temporaries { Leaves (spec.with_temporary ts.old.items s) ts.new result }
{
    let number = ts.len();
    if number > u32::MAX as usize {
        return Err(NoMemory);
    }
    ts.push(s)?;
    Ok(number as u32)
}

/// The value of a temporary.
pub fn temporary(s: Scalar, k: u32) -> CoreExpr
    ensures { core_expr result ≡ core.temporary s k }
{
    CoreExpr::Temporary(s, k)
}

/// Gives a temporary this value.
pub fn keep(k: u32, a: CoreExpr) -> CoreStmt
    ensures { core_stmt result ≡ spec.keep k (core_expr a) }
{
    CoreStmt::Assign(Target::Temporary(k), a)
}

/// Puts a statement that does so behind others.
pub fn push_keep(out: &mut Vec<CoreStmt>, k: u32, a: CoreExpr) -> Result<(), NoMemory>
    ensures { Adds (spec.keep k (core_expr a) ∷ []) out.old out.new result }
{
    push(out, keep(k, a))
}

fn in_temporary(
    out: &mut Vec<CoreStmt>,
    ts: &mut Vec<Scalar>,
    a: CoreExpr,
) -> Result<CoreExpr, NoMemory>
    ensures statements { Adds (in_temporary a ts.old).statements out.old out.new result }
    ensures value { Gives (in_temporary a ts.old).value result }
    ensures temporaries { Leaves (in_temporary a ts.old).temporaries ts.new result }
{
    let s = type_of(&a);
    let k = new_temporary(ts, s)?;
    push_keep(out, k, a)?;
    Ok(CoreExpr::Temporary(s, k))
}

/// A value that has to last.
pub fn saved(
    out: &mut Vec<CoreStmt>,
    ts: &mut Vec<Scalar>,
    a: CoreExpr,
) -> Result<CoreExpr, NoMemory>
    ensures statements { Adds (saved a ts.old).statements out.old out.new result }
    ensures value { Gives (saved a ts.old).value result }
    ensures temporaries { Leaves (saved a ts.old).temporaries ts.new result }
{
    if is_literal(&a) {
        Ok(a)
    } else {
        in_temporary(out, ts, a)
    }
}

/// A value that has to last where a later operand acts.
pub fn saved_if(
    out: &mut Vec<CoreStmt>,
    ts: &mut Vec<Scalar>,
    later_acts: bool,
    a: CoreExpr,
) -> Result<CoreExpr, NoMemory>
    ensures statements { Adds (saved_if later_acts a ts.old).statements out.old out.new result }
    ensures value { Gives (saved_if later_acts a ts.old).value result }
    ensures temporaries { Leaves (saved_if later_acts a ts.old).temporaries ts.new result }
{
    if later_acts { saved(out, ts, a) } else { Ok(a) }
}

/// A value that is discarded is put in a temporary too, unless it is a literal.
pub fn discarded(out: &mut Vec<CoreStmt>, ts: &mut Vec<Scalar>, a: CoreExpr) -> Result<(), NoMemory>
    ensures statements { Adds (saved a ts.old).statements out.old out.new result }
    ensures temporaries { Leaves (saved a ts.old).temporaries ts.new result }
{
    saved(out, ts, a)?;
    Ok(())
}

// ---- where a value stands

/// Where a value stands that is read or written.
#[derive(Drop)]
pub enum Location {
    /// a plain variable, by its number
    Plain(u32),
    /// an object in memory, by its address
    Pointed(CoreExpr),
}

/// The value that stands there.
pub fn value_in(alloc: Global, s: Scalar, at: Location) -> Result<CoreExpr, NoMemory>
    ensures { Gives (spec.value_at s (location_of at)) result }
{
    match at {
        Location::Plain(x) => Ok(CoreExpr::Variable(s, x)),
        Location::Pointed(a) => Ok(CoreExpr::Load(s, Box::new(alloc, a)?)),
    }
}

/// The same, where it is written too.
pub fn value_at(alloc: Global, s: Scalar, at: &Location) -> Result<CoreExpr, NoMemory>
    ensures { Gives (spec.value_at s (location_of at.now)) result }
{
    match at {
        Location::Plain(x) => Ok(CoreExpr::Variable(s, *x)),
        Location::Pointed(a) => Ok(CoreExpr::Load(s, Box::new(alloc, copy_expr(a, alloc)?)?)),
    }
}

/// Writes the value there.
pub fn written(s: Scalar, at: Location, a: CoreExpr) -> CoreStmt
    ensures { core_stmt result ≡ spec.written s (location_of at) (core_expr a) }
{
    match at {
        Location::Plain(x) => CoreStmt::Assign(Target::Variable(x), a),
        Location::Pointed(p) => CoreStmt::Store(s, p, a),
    }
}

// ---- values

/// A pointer to the member at this offset.
pub fn member(alloc: Global, offset: u32, a: CoreExpr) -> Result<CoreExpr, NoMemory>
    ensures { Gives (core.member offset (core_expr a)) result }
{
    Ok(CoreExpr::Member(offset, Box::new(alloc, a)?))
}

/// An operation on a value.
pub fn unary(alloc: Global, operation: UnaryOperation, a: CoreExpr) -> Result<CoreExpr, NoMemory>
    ensures { Gives (core.unary operation (core_expr a)) result }
{
    Ok(CoreExpr::Unary(operation, Box::new(alloc, a)?))
}

/// An operation on two values.
pub fn binary(
    alloc: Global,
    operation: BinaryOperation,
    left: CoreExpr,
    right: CoreExpr,
) -> Result<CoreExpr, NoMemory>
    ensures { Gives (core.binary operation (core_expr left) (core_expr right)) result }
{
    Ok(CoreExpr::Binary(operation, Box::new(alloc, Operands { left, right })?))
}

/// `&&`
pub fn logical_and(alloc: Global, left: CoreExpr, right: CoreExpr) -> Result<CoreExpr, NoMemory>
    ensures { Gives (core.logical_and (core_expr left) (core_expr right)) result }
{
    Ok(CoreExpr::And(Box::new(alloc, Operands { left, right })?))
}

/// `||`
pub fn logical_or(alloc: Global, left: CoreExpr, right: CoreExpr) -> Result<CoreExpr, NoMemory>
    ensures { Gives (core.logical_or (core_expr left) (core_expr right)) result }
{
    Ok(CoreExpr::Or(Box::new(alloc, Operands { left, right })?))
}

/// `?:`
pub fn conditional(
    alloc: Global,
    condition: CoreExpr,
    met: CoreExpr,
    unmet: CoreExpr,
) -> Result<CoreExpr, NoMemory>
    ensures { Gives (chosen condition met unmet) result }
{
    let condition = Box::new(alloc, condition)?;
    let met = Box::new(alloc, met)?;
    let unmet = Box::new(alloc, unmet)?;
    Ok(CoreExpr::Conditional(condition, met, unmet))
}
