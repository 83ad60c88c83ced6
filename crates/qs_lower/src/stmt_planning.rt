// Planning the code of statements: each form of core becomes what the definition of its code says.
ghost use Rattle.std.specs.Prelude.{◌≡◌, IfOk, IsSome};
ghost use Rattle.qs_core.specs.TreeOf.{core_exprs};
ghost use Rattle.qs_lower_expressions.specs.Plans.{ArePlansIn};
ghost use Rattle.qs_lower.specs.Statements as spec;
ghost use Rattle.qs_lower.specs.StmtPlans.{stmt_part, all_before, all_joined, IsStmtPlanOf};
ghost use Rattle.qs_lower.specs.StmtPlans.{branch_plans, joined_plans, loop_at_end, loop_of};
ghost use Rattle.qs_lower.specs.StmtPlans.{stmt_parts, switch_plans, switch_to, test_at_end};

use crate::stmt_plans::{BranchPlan, LoopPlan, StmtPlan, SwitchPlan, TestedParts, TestedPlan};
use crate::stmt_scratch::stmt_used;
use crate::ways::{Way, is_next};
use qs_base::{NoMemory, sum};
use qs_core::{CoreExpr, CoreLabel, Target};
use qs_lower_expressions::{ExprPlan, lowered};
use std::alloc::Global;

// ---- several statements

// The last behind all of them, which are none where it only goes on.
fn with_last(alloc: Global, all: Vec<StmtPlan>, last: StmtPlan) -> Result<StmtPlan, NoMemory>
    ensures { IfOk result (IsStmtPlanOf (joined_plans all.items last)) }
{
    if all.is_empty() {
        Ok(last)
    } else {
        Ok(StmtPlan::Joined(all, Box::new(alloc, last)?))
    }
}

// What follows behind all of them, each of which does something and doesn't end.
fn all_before(alloc: Global, all: Vec<StmtPlan>, last: StmtPlan) -> Result<StmtPlan, NoMemory>
    ensures { IfOk result (IsStmtPlanOf (all_before (stmt_parts all.items) (stmt_part last))) }
{
    match last.way() {
        None => with_last(alloc, all, last),
        Some(w) => {
            let mut all = all;
            match all.pop() {
                None => Ok(last),
                Some(s) => with_last(alloc, all, StmtPlan::Redirected(Box::new(alloc, s)?, w)),
            }
        }
    }
}

/// All of them, one after the other. What does nothing is left out, and so is what stands behind
/// one that ends, which is never reached.
pub fn joined(alloc: Global, all: Vec<StmtPlan>) -> Result<StmtPlan, NoMemory>
    ensures { IfOk result (IsStmtPlanOf (all_joined (stmt_parts all.items))) }
{
    let mut all = all;
    let Some(last) = all.pop() else {
        return Ok(StmtPlan::Go(Way::Next));
    };
    let mut kept = Vec::new(alloc);
    for s in all {
        if s.ends() {
            return all_before(alloc, kept, s);
        }
        match s.way() {
            None => kept.push(s)?,
            Some(_) => {}
        }
    }
    all_before(alloc, kept, last)
}

// ---- branches

/// The first where the test holds, else the second.
pub fn of_branch(
    alloc: Global,
    known: Option<bool>,
    free: u32,
    test: ExprPlan,
    met: StmtPlan,
    unmet: StmtPlan,
) -> Result<StmtPlan, NoMemory>
    ensures { IfOk result (IsStmtPlanOf (branch_plans known free test met unmet)) }
{
    match known {
        None => {
            let branch = BranchPlan {
                free,
                test,
                met,
                unmet,
            };
            Ok(StmtPlan::Branch(Box::new(alloc, branch)?))
        }
        Some(true) => Ok(met),
        Some(false) => Ok(unmet),
    }
}

// ---- loops

fn loop_of(
    alloc: Global,
    is_alone: bool,
    body: StmtPlan,
    step: StmtPlan,
) -> Result<StmtPlan, NoMemory>
    ensures { IfOk result (IsStmtPlanOf (loop_of is_alone (stmt_part body) (stmt_part step))) }
{
    let plan = LoopPlan {
        is_alone,
        body,
        step,
    };
    Ok(StmtPlan::Loop(Box::new(alloc, plan)?))
}

fn tested_loop(
    alloc: Global,
    free: u32,
    body: StmtPlan,
    step: StmtPlan,
) -> Result<StmtPlan, NoMemory>
    requires { IsSome (test_at_end (stmt_part body)) }
    ensures { IfOk result (IsStmtPlanOf (loop_at_end free (stmt_part body) (stmt_part step))) }
{
    let used = stmt_used(&body)?.max(stmt_used(&step)?);
    let ends = !(body.breaks() || step.breaks());
    let TestedParts { front, test, rest } = body.into_tested(alloc)?;
    let plan = TestedPlan {
        free,
        front,
        test,
        rest,
        step,
        used,
        ends,
    };
    Ok(StmtPlan::TestedLoop(Box::new(alloc, plan)?))
}

/// A body and a step, again and again.
#[tactic(auto, using(crate::proofs::StmtPlanLaws::loop_cases))]
pub fn of_loop(
    alloc: Global,
    free: u32,
    body: StmtPlan,
    step: StmtPlan,
) -> Result<StmtPlan, NoMemory>
    ensures { IfOk result (IsStmtPlanOf (spec.of_loop free (stmt_part body) (stmt_part step))) }
{
    let is_alone = is_next(step.way());
    match body.idle() {
        None => loop_of(alloc, is_alone, body, step),
        Some(is_idle) => {
            if is_idle && is_alone {
                loop_of(alloc, true, body, step)
            } else {
                tested_loop(alloc, free, body, step)
            }
        }
    }
}

// ---- switches

fn with_parts(
    alloc: Global,
    free: u32,
    operand: ExprPlan,
    labels: &[CoreLabel],
    parts: Vec<StmtPlan>,
    last: StmtPlan,
) -> Result<StmtPlan, NoMemory>
    ensures { IfOk result (IsStmtPlanOf (switch_to free operand labels.now parts.items last)) }
{
    let labels = Vec::from_slice(alloc, labels)?;
    let plan = SwitchPlan {
        free,
        operand,
        labels,
        parts,
        last,
    };
    Ok(StmtPlan::Switch(Box::new(alloc, plan)?))
}

/// The parts, from the one on that the operand chooses. None is left out, since a label may stand
/// before it.
pub fn of_switch(
    alloc: Global,
    free: u32,
    operand: ExprPlan,
    labels: &[CoreLabel],
    parts: Vec<StmtPlan>,
) -> Result<StmtPlan, NoMemory>
    ensures { IfOk result (IsStmtPlanOf (switch_plans free operand labels.now parts.items)) }
{
    let mut parts = parts;
    match parts.pop() {
        None => with_parts(alloc, free, operand, labels, parts, StmtPlan::Go(Way::Next)),
        Some(last) => with_parts(alloc, free, operand, labels, parts, last),
    }
}

// ---- statements

/// The temporary that holds what an assignment gives a value.
pub fn target_of(v: u32, x: Target) -> Result<u32, NoMemory>
    ensures { IfOk result (λ n. n ≡ spec.target_of v x) }
{
    match x {
        Target::Variable(x) => Ok(x),
        Target::Temporary(k) => sum(v, k),
    }
}

/// The temporary that takes the result of a call.
pub fn taken_by(v: u32, x: Option<u32>) -> Result<Option<u32>, NoMemory>
    ensures { IfOk result (λ n. n ≡ spec.taken_by v x) }
{
    match x {
        None => Ok(None),
        Some(k) => Ok(Some(sum(v, k)?)),
    }
}

/// The plans of expressions, in order.
pub fn all_lowered(alloc: Global, v: u32, es: &[CoreExpr]) -> Result<Vec<ExprPlan>, NoMemory>
    ensures { IfOk result (ArePlansIn v (core_exprs es.now)) }
{
    let mut all = Vec::new(alloc);
    for e in es {
        all.push(lowered(alloc, v, e)?)?;
    }
    Ok(all)
}
