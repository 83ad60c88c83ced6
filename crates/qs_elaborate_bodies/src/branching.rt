// `&&`, `||` and `?:` where an operand behind the first one acts: an `if` whose branches give one
// temporary.
ghost use Rattle.std.specs.Prelude.{◌≡◌, ◌||◌, [], ◌∷◌};
ghost use Rattle.qs_memory.specs.declared.scalar.Scalar.TheVariants as scalars;
ghost use Rattle.qs_core.specs.Trees as core;
ghost use Rattle.qs_core.specs.TreeOf.{core_expr, core_stmts};
ghost use Rattle.qs_elaborate_bodies.specs.Expressions as spec;
ghost use Rattle.qs_elaborate_bodies.specs.CoreOf.{statements_in, truth_branch, literal_branch};
ghost use Rattle.qs_elaborate_bodies.specs.CoreOf.{and_branching, or_branching, choice_branching};
ghost use Rattle.qs_elaborate_bodies.specs.Results.{Adds, Leaves, Gives, Makes};
ghost use Rattle.qs_elaborate_bodies.specs.Laws.{has_any};

use crate::operations::truth;
use crate::parts::{new_temporary, one_statement, push_branch, push_keep};
use qs_base::NoMemory;
use qs_core::{CoreExpr, CoreStmt};
use qs_memory::Scalar;
use std::alloc::Global;

/// What an expression gives, its statements in a list of their own.
#[derive(Drop)]
pub struct Branch {
    /// the statements
    pub statements: Vec<CoreStmt>,
    /// the value
    pub value: CoreExpr,
}

/// Whether it has statements.
pub fn acted(b: &Branch) -> bool
    ensures { result ≡ has_any (statements_in b.now) }
{
    !b.statements.is_empty()
}

/// Whether one of them has statements.
pub fn one_acted(a: &Branch, b: &Branch) -> bool
    ensures { result ≡ has_any (statements_in a.now) || has_any (statements_in b.now) }
{
    acted(a) || acted(b)
}

// A branch that gives the temporary this value.
fn branch_with(mut list: Vec<CoreStmt>, k: u32, a: CoreExpr) -> Result<CoreStmt, NoMemory>
    ensures { Makes (spec.branch_with (core_stmts list.items) k (core_expr a)) result }
{
    push_keep(&mut list, k, a)?;
    Ok(one_statement(list))
}

// A branch that gives the temporary whether the value differs from 0.
fn truth_branch(alloc: Global, b: Branch, k: u32) -> Result<CoreStmt, NoMemory>
    ensures { Makes (truth_branch k b) result }
{
    branch_with(b.statements, k, truth(alloc, b.value)?)
}

// A branch that gives the temporary 1 or 0.
fn literal_branch(alloc: Global, k: u32, n: u32) -> Result<CoreStmt, NoMemory>
    ensures { Makes (literal_branch k n) result }
{
    branch_with(Vec::new(alloc), k, CoreExpr::Literal(Scalar::Int, n))
}

/// `v && b` where b acts.
pub fn and_branching(
    alloc: Global,
    out: &mut Vec<CoreStmt>,
    ts: &mut Vec<Scalar>,
    v: CoreExpr,
    b: Branch,
) -> Result<CoreExpr, NoMemory>
    ensures statements { Adds (and_branching v b ts.old).statements out.old out.new result }
    ensures value { Gives (and_branching v b ts.old).value result }
    ensures temporaries { Leaves (and_branching v b ts.old).temporaries ts.new result }
{
    let k = new_temporary(ts, Scalar::Int)?;
    let met = truth_branch(alloc, b, k)?;
    let unmet = literal_branch(alloc, k, 0)?;
    push_branch(alloc, out, v, met, unmet)?;
    Ok(CoreExpr::Temporary(Scalar::Int, k))
}

/// `v || b` where b acts; its temporary is k.
pub fn or_branching(
    alloc: Global,
    out: &mut Vec<CoreStmt>,
    k: u32,
    v: CoreExpr,
    b: Branch,
) -> Result<CoreExpr, NoMemory>
    ensures statements { Adds (or_branching k v b ∷ []) out.old out.new result }
    ensures value { Gives (core.temporary scalars.Int k) result }
{
    let met = literal_branch(alloc, k, 1)?;
    let unmet = truth_branch(alloc, b, k)?;
    push_branch(alloc, out, v, met, unmet)?;
    Ok(CoreExpr::Temporary(Scalar::Int, k))
}

/// `v ? a : b` where a or b acts; its temporary is k, of type s.
pub fn choice_branching(
    alloc: Global,
    out: &mut Vec<CoreStmt>,
    s: Scalar,
    k: u32,
    v: CoreExpr,
    a: Branch,
    b: Branch,
) -> Result<CoreExpr, NoMemory>
    ensures statements { Adds (choice_branching k v a b ∷ []) out.old out.new result }
    ensures value { Gives (core.temporary s k) result }
{
    let met = branch_with(a.statements, k, a.value)?;
    let unmet = branch_with(b.statements, k, b.value)?;
    push_branch(alloc, out, v, met, unmet)?;
    Ok(CoreExpr::Temporary(s, k))
}
