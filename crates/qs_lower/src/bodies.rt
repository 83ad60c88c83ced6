// The plans of the statements of core.
ghost use Rattle.std.specs.Prelude.{IfOk};
ghost use Rattle.qs_memory.specs.BlankOf.{blank_tree};
ghost use Rattle.qs_core.specs.Trees as core;
ghost use Rattle.qs_core.specs.Trees.{stmts_of};
ghost use Rattle.qs_core.specs.TreeOf.{core_expr, core_exprs, core_stmt, core_stmts};
ghost use Rattle.qs_lower.specs.Statements as spec;
ghost use Rattle.qs_lower.specs.StmtPlans.{AreStmtPlansIn, IsStmtPlanIn, IsStmtPlanOf, copy_stmt};

use crate::stmt_planning::{
    all_lowered, joined, of_branch, of_loop, of_switch, taken_by, target_of,
};
use crate::stmt_plans::StmtPlan;
use crate::ways::Way;
use qs_base::NoMemory;
use qs_calls::Callee;
use qs_core::{CoreExpr, CoreStmt, Target};
use qs_lower_expressions::lowered;
use qs_memory::{Blank, Scalar};
use std::alloc::Global;

fn assign_plan(
    alloc: Global,
    v: u32,
    free: u32,
    x: Target,
    e: &CoreExpr,
) -> Result<StmtPlan, NoMemory>
    ensures { IfOk result (IsStmtPlanIn v free (core.assign x (core_expr e.now))) }
{
    let e = lowered(alloc, v, e)?;
    Ok(StmtPlan::Assign(free, target_of(v, x)?, e))
}

fn store_plan(
    alloc: Global,
    v: u32,
    free: u32,
    s: Scalar,
    a: &CoreExpr,
    b: &CoreExpr,
) -> Result<StmtPlan, NoMemory>
    ensures { IfOk result (IsStmtPlanIn v free (core.store s (core_expr a.now) (core_expr b.now))) }
{
    let a = lowered(alloc, v, a)?;
    let b = lowered(alloc, v, b)?;
    Ok(StmtPlan::Store(free, s, a, b))
}

fn copy_plan(
    alloc: Global,
    v: u32,
    free: u32,
    size: u32,
    alignment: u32,
    a: &CoreExpr,
    b: &CoreExpr,
) -> Result<StmtPlan, NoMemory>
    ensures { IfOk result (IsStmtPlanIn v free (copy_stmt size alignment a.now b.now)) }
{
    let a = lowered(alloc, v, a)?;
    let b = lowered(alloc, v, b)?;
    Ok(StmtPlan::Copy {
        free,
        size,
        alignment,
        to: a,
        from: b,
    })
}

fn fill_plan(
    alloc: Global,
    v: u32,
    free: u32,
    blank: &Blank,
    a: &CoreExpr,
) -> Result<StmtPlan, NoMemory>
    ensures { IfOk result (IsStmtPlanIn v free (core.fill (blank_tree blank.now) (core_expr a.now))) }
{
    let a = lowered(alloc, v, a)?;
    Ok(StmtPlan::Fill(free, blank.copy(alloc)?, a))
}

fn call_plan(
    alloc: Global,
    v: u32,
    free: u32,
    x: Option<u32>,
    f: Callee,
    es: &[CoreExpr],
) -> Result<StmtPlan, NoMemory>
    ensures { IfOk result (IsStmtPlanIn v free (core.call x f (core_exprs es.now))) }
{
    let es = all_lowered(alloc, v, es)?;
    Ok(StmtPlan::Call(free, taken_by(v, x)?, f, es))
}

#[cycle(stmt_plans)]
fn stmt_plans(alloc: Global, v: u32, free: u32, ss: &[CoreStmt]) -> Result<Vec<StmtPlan>, NoMemory>
    ensures { IfOk result (AreStmtPlansIn v free (core_stmts ss.now)) }
{
    let mut all = Vec::new(alloc);
    for s in ss {
        all.push(stmt_plan(alloc, v, free, s)?)?;
    }
    Ok(all)
}

/// The plan of a statement in a function with so many variables, which are the first temporaries.
#[cycle(stmt_plans)]
#[tactic(auto, using(crate::proofs::StmtPlanLaws::stmts_joined))]
fn stmt_plan(alloc: Global, v: u32, free: u32, s: &CoreStmt) -> Result<StmtPlan, NoMemory>
    ensures { IfOk result (IsStmtPlanIn v free (core_stmt s.now)) }
{
    match s {
        CoreStmt::Skip => Ok(StmtPlan::Go(Way::Next)),
        CoreStmt::Seq(ss) => {
            let all = stmt_plans(alloc, v, free, ss)?;
            joined(alloc, all)
        }
        CoreStmt::Assign(x, e) => assign_plan(alloc, v, free, *x, e),
        CoreStmt::Store(s, a, b) => store_plan(alloc, v, free, *s, a, b),
        CoreStmt::Copy {
            size,
            alignment,
            to: a,
            from: b,
        } => copy_plan(alloc, v, free, *size, *alignment, a, b),
        CoreStmt::Fill(blank, a) => fill_plan(alloc, v, free, blank, a),
        CoreStmt::Call(x, f, es) => call_plan(alloc, v, free, *x, *f, es),
        CoreStmt::If(e, a, b) => {
            let e = lowered(alloc, v, e)?;
            let a = stmt_plan(alloc, v, free, a)?;
            let b = stmt_plan(alloc, v, free, b)?;
            of_branch(alloc, e.known(), free, e, a, b)
        }
        CoreStmt::Loop(a, b) => {
            let body = stmt_plan(alloc, v, free, a)?;
            let step = stmt_plan(alloc, v, free, b)?;
            of_loop(alloc, free, body, step)
        }
        CoreStmt::Switch(e, labels, ss) => {
            let e = lowered(alloc, v, e)?;
            let parts = stmt_plans(alloc, v, free, ss)?;
            of_switch(alloc, free, e, labels, parts)
        }
        CoreStmt::Break => Ok(StmtPlan::Go(Way::Break)),
        CoreStmt::Continue => Ok(StmtPlan::Go(Way::Continue)),
        CoreStmt::Return(None) => Ok(StmtPlan::PlainReturn),
        CoreStmt::Return(Some(e)) => Ok(StmtPlan::Return(free, lowered(alloc, v, e)?)),
    }
}

/// The plan of the statements of a function's body.
#[tactic(auto, using(crate::proofs::StmtPlanLaws::stmts_joined))]
pub fn body_plan(alloc: Global, v: u32, free: u32, ss: &[CoreStmt]) -> Result<StmtPlan, NoMemory>
    ensures { IfOk result (IsStmtPlanOf (spec.stmts_code v free (stmts_of (core_stmts ss.now)))) }
{
    let all = stmt_plans(alloc, v, free, ss)?;
    joined(alloc, all)
}
