// How many instructions the code of a statement has, and where jumps to it go.
ghost use Rattle.std.specs.Prelude.{◌≡◌, ◌+◌, IfOk};
ghost use Rattle.qs_lower.specs.Statements.{entries};
ghost use Rattle.qs_lower_expressions.specs.Expressions as spec;
ghost use Rattle.qs_lower_expressions.specs.Plans.{expr_code, expr_codes};
ghost use Rattle.qs_lower.specs.StmtPlans.{stmt_part, branch_part, loop_part, tested_part, switch_part};
ghost use Rattle.qs_lower.specs.StmtPlans.{joined_plans, sizes_before, stmt_parts};
ghost use Rattle.qs_lower.specs.Ways.{falls_tree};
ghost use Rattle.qs_lower_expressions.specs.Expressions.{size_of};

use crate::choices::choice_size;
use crate::stmt_plans::{BranchPlan, LoopPlan, StmtPlan, SwitchPlan, TestedPlan};
use crate::ways::{Falls, body_falls, last_falls, next_falls, none_falls};
use qs_base::{NoMemory, sum};
use qs_lower_expressions::{ExprPlan, base_size, exit_size, size, size_of, test_size};
use std::alloc::Global;

// Of all of them, one behind the other.
fn all_size(es: &[ExprPlan]) -> Result<u32, NoMemory>
    ensures { IfOk result (λ n. n ≡ spec.all_size (expr_codes es.now)) }
{
    match es {
        [] => Ok(0),
        [e, rest @ ..] => sum(size_of(e)?, all_size(rest)?),
    }
}

fn store_size(p: &ExprPlan, e: &ExprPlan) -> Result<u32, NoMemory>
    ensures { IfOk result (λ n. n ≡ (expr_code p.now).base_size + size_of (expr_code e.now) + 1) }
{
    sum(sum(base_size(p)?, size_of(e)?)?, 1)
}

fn copy_size(p: &ExprPlan, q: &ExprPlan) -> Result<u32, NoMemory>
    ensures { IfOk result (λ n. n ≡ (expr_code p.now).base_size + (expr_code q.now).base_size + 1) }
{
    sum(sum(base_size(p)?, base_size(q)?)?, 1)
}

/// Of a statement, by which of its exits come next.
#[cycle(stmt_sizes)]
pub fn stmt_size(s: &StmtPlan, y: Falls) -> Result<u32, NoMemory>
    ensures { IfOk result (λ n. n ≡ (stmt_part s.now).part.size (falls_tree y)) }
{
    match s {
        StmtPlan::Go(w) => Ok(exit_size(y.to(*w))),
        StmtPlan::Assign(_, _, e) => sum(size(e)?, exit_size(y.next)),
        StmtPlan::Store(_, _, p, e) => sum(store_size(p, e)?, exit_size(y.next)),
        StmtPlan::Copy { to: p, from: q, .. } => sum(copy_size(p, q)?, exit_size(y.next)),
        StmtPlan::Fill(_, _, p) => sum(sum(base_size(p)?, 1)?, exit_size(y.next)),
        StmtPlan::Call(_, _, _, es) => sum(sum(all_size(es)?, 1)?, exit_size(y.next)),
        StmtPlan::Return(_, e) => sum(size_of(e)?, 1),
        StmtPlan::PlainReturn => Ok(1),
        StmtPlan::Joined(all, last) => sum(sizes_before(all)?, stmt_size(last, y)?),
        StmtPlan::Redirected(a, w) => stmt_size(
            a,
            Falls {
                next: y.to(*w),
                ..y
            },
        ),
        StmtPlan::Branch(p) => branch_size(p, y),
        StmtPlan::Loop(p) => loop_size(p, y),
        StmtPlan::TestedLoop(p) => tested_size(p, y),
        StmtPlan::Switch(p) => switch_size(p, y),
    }
}

// Of all of them, behind each of which something else stands.
#[cycle(stmt_sizes)]
fn sizes_before(ss: &[StmtPlan]) -> Result<u32, NoMemory>
    ensures { IfOk result (λ n. n ≡ sizes_before (stmt_parts ss.now)) }
{
    let mut size = 0;
    for s in ss {
        size = sum(size, stmt_size(s, next_falls())?)?;
    }
    Ok(size)
}

#[cycle(stmt_sizes)]
fn branch_size(p: &BranchPlan, y: Falls) -> Result<u32, NoMemory>
    ensures { IfOk result (λ n. n ≡ (branch_part p.now).part.size (falls_tree y)) }
{
    match p.met.way() {
        Some(v) => match p.unmet.way() {
            Some(w) => test_size(&p.test, y.to(v), y.to(w)),
            None => sum(test_size(&p.test, false, true)?, stmt_size(&p.unmet, y)?),
        },
        None => match p.unmet.way() {
            Some(_) => sum(test_size(&p.test, true, false)?, stmt_size(&p.met, y)?),
            None => {
                let first = sum(
                    test_size(&p.test, true, false)?,
                    stmt_size(&p.met, none_falls())?,
                )?;
                sum(first, stmt_size(&p.unmet, y)?)
            }
        },
    }
}

#[cycle(stmt_sizes)]
fn loop_size(p: &LoopPlan, y: Falls) -> Result<u32, NoMemory>
    ensures { IfOk result (λ n. n ≡ (loop_part p.now).part.size (falls_tree y)) }
{
    if p.is_alone {
        stmt_size(&p.body, last_falls(y.next))
    } else {
        sum(
            stmt_size(&p.body, body_falls())?,
            stmt_size(&p.step, last_falls(y.next))?,
        )
    }
}

#[cycle(stmt_sizes)]
fn tested_size(p: &TestedPlan, y: Falls) -> Result<u32, NoMemory>
    ensures { IfOk result (λ n. n ≡ (tested_part p.now).part.size (falls_tree y)) }
{
    let rest = sum(1, stmt_size(&p.rest, body_falls())?)?;
    let step = sum(rest, stmt_size(&p.step, next_falls())?)?;
    let front = sum(step, stmt_size(&p.front, next_falls())?)?;
    sum(front, test_size(&p.test, false, y.next)?)
}

#[cycle(stmt_sizes)]
fn switch_size(p: &SwitchPlan, y: Falls) -> Result<u32, NoMemory>
    ensures { IfOk result (λ n. n ≡ (switch_part p.now).part.size (falls_tree y)) }
{
    let first = choice_size(&p.operand, &p.labels)?;
    let second = sum(first, sizes_before(&p.parts)?)?;
    sum(second, stmt_size(&p.last, y.in_switch())?)
}

/// The index of the instruction where jumps to a statement go, whose code begins at this one.
pub fn entry(s: &StmtPlan, at: u32) -> Result<u32, NoMemory>
    ensures { IfOk result (λ n. n ≡ (stmt_part s.now).part.entry at) }
{
    match s {
        StmtPlan::Joined(all, last) => match all.as_slice() {
            [] => entry(last, at),
            [s, ..] => entry(s, at),
        },
        StmtPlan::Redirected(a, _) => entry(a, at),
        StmtPlan::Loop(p) => entry(&p.body, at),
        StmtPlan::TestedLoop(p) => {
            let second = sum(sum(at, 1)?, stmt_size(&p.rest, body_falls())?)?;
            entry(&p.front, sum(second, stmt_size(&p.step, next_falls())?)?)
        }
        StmtPlan::Go(_) => Ok(at),
        StmtPlan::Assign(_, _, _) => Ok(at),
        StmtPlan::Store(_, _, _, _) => Ok(at),
        StmtPlan::Copy { .. } => Ok(at),
        StmtPlan::Fill(_, _, _) => Ok(at),
        StmtPlan::Call(_, _, _, _) => Ok(at),
        StmtPlan::Return(_, _) => Ok(at),
        StmtPlan::PlainReturn => Ok(at),
        StmtPlan::Branch(p) => branch_entry(p, at),
        StmtPlan::Switch(_) => Ok(at),
    }
}

/// That of these, one after the other, and then the last.
pub fn entry_before(ss: &[StmtPlan], last: &StmtPlan, at: u32) -> Result<u32, NoMemory>
    ensures { IfOk result (λ n. n ≡ (joined_plans ss.now last.now).part.entry at) }
{
    match ss {
        [] => entry(last, at),
        [s, ..] => entry(s, at),
    }
}

// Of each of the four forms.
fn branch_entry(p: &BranchPlan, at: u32) -> Result<u32, NoMemory>
    ensures { IfOk result (λ n. n ≡ (branch_part p.now).part.entry at) }
{
    match p.met.way() {
        Some(_) => match p.unmet.way() {
            Some(_) => Ok(at),
            None => Ok(at),
        },
        None => match p.unmet.way() {
            Some(_) => Ok(at),
            None => Ok(at),
        },
    }
}

/// Where jumps to each of these go, in order, and to the last, where the first stands at this index.
pub fn entries(
    alloc: Global,
    ss: &[StmtPlan],
    last: &StmtPlan,
    at: u32,
) -> Result<Vec<u32>, NoMemory>
    ensures { IfOk result (λ r. r.items ≡ entries (stmt_parts ss.now) (stmt_part last.now) at) }
{
    let mut all = Vec::new(alloc);
    let mut place = at;
    for s in ss {
        all.push(entry(s, place)?)?;
        place = sum(place, stmt_size(s, next_falls())?)?;
    }
    all.push(entry(last, place)?)?;
    Ok(all)
}
