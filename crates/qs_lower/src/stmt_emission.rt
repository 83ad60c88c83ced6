// The code of statements.
ghost use Rattle.std.specs.Prelude.{◌≡◌, ◌+◌, ◌++◌, None, OnOk};
ghost use Rattle.qs_lower_expressions.specs.Expressions as spec;
ghost use Rattle.qs_lower_expressions.specs.Plans.{EmitsAt, Grows, expr_codes};
ghost use Rattle.qs_lower.specs.StmtPlans.{stmt_part, branch_part, loop_part, tested_part, switch_part};
ghost use Rattle.qs_lower.specs.StmtPlans.{EmitsBefore, EmitsCopy, EmitsPart, EmitsTo, GrowsByCopy};
ghost use Rattle.qs_lower.specs.StmtPlans.{GrowsByPart, GrowsTo, call_code, fill_code};
ghost use Rattle.qs_lower.specs.StmtPlans.{sizes_before, stmt_parts, store_code};
ghost use Rattle.qs_lower.specs.Ways.{exits_tree};
ghost use Rattle.qs_lower_expressions.specs.Expressions.{all_operands};

use crate::choices::{choice_size, emit_choice, other_place};
use crate::stmt_plans::{BranchPlan, LoopPlan, StmtPlan, SwitchPlan, TestedPlan};
use crate::stmt_sizes::{entries, entry, entry_before, stmt_size};
use crate::ways::{
    Exits, body_exits, body_falls, front_exits, last_exits, next_falls, none_falls, step_exits,
};
use qs_base::{NoMemory, sum};
use qs_calls::Callee;
use qs_core::default_part;
use qs_lower_expressions::{
    Exit, ExprPlan, address_at, base_own, emit_base, emit_exit, emit_into, emit_operand, emit_test,
    operand_of, own, place, put, test_size,
};
use qs_memory::{Blank, Scalar};
use qs_tac::{Instruction, Operand};
use std::alloc::Global;

// ---- what stands alone

fn emit_store(
    code: &mut Vec<Instruction>,
    t: u32,
    s: Scalar,
    p: &ExprPlan,
    e: &ExprPlan,
    next: Exit,
) -> Result<(), NoMemory>
    ensures code { OnOk result (EmitsTo code.old code.new (store_code t s p.now e.now) next) }
    ensures size { OnOk result (GrowsTo code.old code.new (store_code t s p.now e.now) next) }
{
    let value = sum(t, base_own(p)?)?;
    let to = address_at(p, t)?;
    emit_base(code, p, t)?;
    emit_operand(code, e, value)?;
    put(code, Instruction::Store(s, to, operand_of(e, value)))?;
    emit_exit(code, next)
}

fn emit_copy(
    code: &mut Vec<Instruction>,
    t: u32,
    size: u32,
    alignment: u32,
    p: &ExprPlan,
    q: &ExprPlan,
    next: Exit,
) -> Result<(), NoMemory>
    ensures code { OnOk result (EmitsCopy code.old code.new t size alignment p.now q.now next) }
    ensures size { OnOk result (GrowsByCopy code.old code.new t size alignment p.now q.now next) }
{
    let second = sum(t, base_own(p)?)?;
    let to = address_at(p, t)?;
    let from = address_at(q, second)?;
    emit_base(code, p, t)?;
    emit_base(code, q, second)?;
    put(
        code,
        Instruction::Copy {
            size,
            alignment,
            to,
            from,
        },
    )?;
    emit_exit(code, next)
}

fn emit_fill(
    alloc: Global,
    code: &mut Vec<Instruction>,
    t: u32,
    blank: &Blank,
    p: &ExprPlan,
    next: Exit,
) -> Result<(), NoMemory>
    ensures code { OnOk result (EmitsTo code.old code.new (fill_code t blank.now p.now) next) }
    ensures size { OnOk result (GrowsTo code.old code.new (fill_code t blank.now p.now) next) }
{
    let to = address_at(p, t)?;
    let blank = blank.copy(alloc)?;
    emit_base(code, p, t)?;
    put(code, Instruction::Fill(blank, to))?;
    emit_exit(code, next)
}

// All of them, one behind the other.
fn emit_all(code: &mut Vec<Instruction>, es: &[ExprPlan], t: u32) -> Result<(), NoMemory>
    ensures code { OnOk result (EmitsAt code.old code.new (spec.all_code (expr_codes es.now) t)) }
    ensures size { OnOk result (Grows code.old code.new (spec.all_size (expr_codes es.now))) }
{
    match es {
        [] => Ok(()),
        [e, rest @ ..] => {
            let next = sum(t, own(e))?;
            emit_operand(code, e, t)?;
            emit_all(code, rest, next)
        }
    }
}

fn put_operands(es: &[ExprPlan], t: u32, all: &mut Vec<Operand>) -> Result<(), NoMemory>
    ensures { OnOk result (all.new.items ≡ all.old.items ++ all_operands (expr_codes es.now) t) }
{
    match es {
        [] => Ok(()),
        [e, rest @ ..] => {
            all.push(operand_of(e, t))?;
            put_operands(rest, sum(t, own(e))?, all)
        }
    }
}

fn emit_call(
    alloc: Global,
    code: &mut Vec<Instruction>,
    t: u32,
    x: Option<u32>,
    f: Callee,
    es: &[ExprPlan],
    next: Exit,
) -> Result<(), NoMemory>
    ensures code { OnOk result (EmitsTo code.old code.new (call_code t x f es.now) next) }
    ensures size { OnOk result (GrowsTo code.old code.new (call_code t x f es.now) next) }
{
    let mut arguments = Vec::new(alloc);
    put_operands(es, t, &mut arguments)?;
    emit_all(code, es, t)?;
    put(code, Instruction::Call(x, f, arguments))?;
    emit_exit(code, next)
}

/// Emits the code of a statement.
#[cycle(stmt_emission)]
pub fn emit_stmt(
    alloc: Global,
    code: &mut Vec<Instruction>,
    s: &StmtPlan,
    x: Exits,
) -> Result<(), NoMemory>
    ensures code { OnOk result (EmitsPart code.old code.new (stmt_part s.now) (exits_tree x)) }
    ensures size { OnOk result (GrowsByPart code.old code.new (stmt_part s.now) (exits_tree x)) }
{
    match s {
        StmtPlan::Go(w) => emit_exit(code, x.to(*w)),
        StmtPlan::Assign(t, y, e) => {
            emit_into(code, e, *y, *t)?;
            emit_exit(code, x.next)
        }
        StmtPlan::Joined(all, last) => {
            emit_before(alloc, code, all, last, x)?;
            emit_stmt(alloc, code, last, x)
        }
        StmtPlan::Redirected(a, w) => emit_stmt(alloc, code, a, x.redirected(*w)),
        StmtPlan::Branch(p) => emit_branch(alloc, code, p, x),
        StmtPlan::Loop(p) => emit_loop(alloc, code, p, x),
        StmtPlan::TestedLoop(p) => emit_tested(alloc, code, p, x),
        StmtPlan::Switch(p) => emit_switch(alloc, code, p, x),
        StmtPlan::Return(t, e) => {
            emit_operand(code, e, *t)?;
            put(code, Instruction::Return(Some(operand_of(e, *t))))
        }
        StmtPlan::PlainReturn => put(code, Instruction::Return(None)),
        StmtPlan::Store(t, s, p, e) => emit_store(code, *t, *s, p, e, x.next),
        StmtPlan::Copy {
            free: t,
            size,
            alignment,
            to: p,
            from: q,
        } => emit_copy(code, *t, *size, *alignment, p, q, x.next),
        StmtPlan::Fill(t, blank, p) => emit_fill(alloc, code, *t, blank, p, x.next),
        StmtPlan::Call(t, y, f, es) => emit_call(alloc, code, *t, *y, *f, es, x.next),
    }
}

// Emits the code of all of them, behind which the last will stand.
#[cycle(stmt_emission)]
fn emit_before(
    alloc: Global,
    code: &mut Vec<Instruction>,
    all: &[StmtPlan],
    last: &StmtPlan,
    x: Exits,
) -> Result<(), NoMemory>
    ensures code { OnOk result (EmitsBefore code.old code.new all.now last.now (exits_tree x)) }
    ensures size { OnOk result (Grows code.old code.new (sizes_before (stmt_parts all.now))) }
{
    for (i, s) in all.iter().enumerate() {
        let second = sum(place(code)?, stmt_size(s, next_falls())?)?;
        let next = entry_before(&all[i + 1..], last, second)?;
        emit_stmt(alloc, code, s, x.before(next))?;
    }
    Ok(())
}

#[cycle(stmt_emission)]
fn emit_branch(
    alloc: Global,
    code: &mut Vec<Instruction>,
    p: &BranchPlan,
    x: Exits,
) -> Result<(), NoMemory>
    ensures code { OnOk result (EmitsPart code.old code.new (branch_part p.now) (exits_tree x)) }
    ensures size { OnOk result (GrowsByPart code.old code.new (branch_part p.now) (exits_tree x)) }
{
    match p.met.way() {
        Some(v) => match p.unmet.way() {
            Some(w) => emit_test(code, &p.test, x.to(v), x.to(w), p.free),
            None => {
                let second = sum(place(code)?, test_size(&p.test, false, true)?)?;
                let unmet = Exit::Falls(entry(&p.unmet, second)?);
                emit_test(code, &p.test, x.to(v).settled(), unmet, p.free)?;
                emit_stmt(alloc, code, &p.unmet, x)
            }
        },
        None => emit_met(alloc, code, p, x),
    }
}

// A branch of which the first side does something.
#[cycle(stmt_emission)]
fn emit_met(
    alloc: Global,
    code: &mut Vec<Instruction>,
    p: &BranchPlan,
    x: Exits,
) -> Result<(), NoMemory>
    requires { (stmt_part p.now.met).way ≡ None }
    ensures code { OnOk result (EmitsPart code.old code.new (branch_part p.now) (exits_tree x)) }
    ensures size { OnOk result (GrowsByPart code.old code.new (branch_part p.now) (exits_tree x)) }
{
    let first = sum(place(code)?, test_size(&p.test, true, false)?)?;
    let met = Exit::Falls(entry(&p.met, first)?);
    match p.unmet.way() {
        Some(w) => {
            emit_test(code, &p.test, met, x.to(w).settled(), p.free)?;
            emit_stmt(alloc, code, &p.met, x)
        }
        None => {
            let second = sum(first, stmt_size(&p.met, none_falls())?)?;
            let unmet = Exit::Goes(entry(&p.unmet, second)?);
            emit_test(code, &p.test, met, unmet, p.free)?;
            emit_stmt(alloc, code, &p.met, x.elsewhere())?;
            emit_stmt(alloc, code, &p.unmet, x)
        }
    }
}

#[cycle(stmt_emission)]
fn emit_loop(
    alloc: Global,
    code: &mut Vec<Instruction>,
    p: &LoopPlan,
    x: Exits,
) -> Result<(), NoMemory>
    ensures code { OnOk result (EmitsPart code.old code.new (loop_part p.now) (exits_tree x)) }
    ensures size { OnOk result (GrowsByPart code.old code.new (loop_part p.now) (exits_tree x)) }
{
    let at = place(code)?;
    let back = last_exits(entry(&p.body, at)?, x.next);
    if p.is_alone {
        emit_stmt(alloc, code, &p.body, back)
    } else {
        let second = sum(at, stmt_size(&p.body, body_falls())?)?;
        emit_stmt(
            alloc,
            code,
            &p.body,
            body_exits(entry(&p.step, second)?, x.next),
        )?;
        emit_stmt(alloc, code, &p.step, back)
    }
}

#[cycle(stmt_emission)]
fn emit_tested(
    alloc: Global,
    code: &mut Vec<Instruction>,
    p: &TestedPlan,
    x: Exits,
) -> Result<(), NoMemory>
    ensures code { OnOk result (EmitsPart code.old code.new (tested_part p.now) (exits_tree x)) }
    ensures size { OnOk result (GrowsByPart code.old code.new (tested_part p.now) (exits_tree x)) }
{
    let first = sum(place(code)?, 1)?;
    let second = sum(first, stmt_size(&p.rest, body_falls())?)?;
    let third = sum(second, stmt_size(&p.step, next_falls())?)?;
    let last = sum(third, stmt_size(&p.front, next_falls())?)?;
    let head = entry(&p.front, third)?;
    let again = entry(&p.step, second)?;
    put(code, Instruction::Jump(head))?;
    emit_stmt(alloc, code, &p.rest, body_exits(again, x.next))?;
    emit_stmt(alloc, code, &p.step, step_exits(Exit::Falls(head), x.next))?;
    emit_stmt(
        alloc,
        code,
        &p.front,
        front_exits(Exit::Falls(last), again, x.next),
    )?;
    emit_test(
        code,
        &p.test,
        Exit::Goes(entry(&p.rest, first)?),
        x.next,
        p.free,
    )
}

#[cycle(stmt_emission)]
fn emit_switch(
    alloc: Global,
    code: &mut Vec<Instruction>,
    p: &SwitchPlan,
    x: Exits,
) -> Result<(), NoMemory>
    ensures code { OnOk result (EmitsPart code.old code.new (switch_part p.now) (exits_tree x)) }
    ensures size { OnOk result (GrowsByPart code.old code.new (switch_part p.now) (exits_tree x)) }
{
    let first = sum(place(code)?, choice_size(&p.operand, &p.labels)?)?;
    let places = entries(alloc, &p.parts, &p.last, first)?;
    let other = other_place(default_part(&p.labels), &places, x.next.place());
    emit_choice(code, p.free, &p.operand, &p.labels, &places, other)?;
    emit_before(alloc, code, &p.parts, &p.last, x.in_switch())?;
    emit_stmt(alloc, code, &p.last, x.in_switch())
}
