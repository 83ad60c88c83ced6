// The linear code of the functions of a unit.
ghost use Rattle.std.specs.Prelude.{◌≡◌, IfOk, OnOk};
ghost use Rattle.qs_core.specs.TreeOf as core;
ghost use Rattle.qs_tac.specs.TreeOf.{function_tree};
ghost use Rattle.qs_lower_expressions.specs.Plans.{Emits, HasCode};
ghost use Rattle.qs_lower.specs.StmtPlans.{stmt_part};
ghost use Rattle.qs_lower.specs.Units as spec;
ghost use Rattle.qs_lower.specs.Units.{lowered_function};

use crate::bodies::body_plan;
use crate::stmt_emission::emit_stmt;
use crate::stmt_plans::StmtPlan;
use crate::stmt_scratch::stmt_used;
use crate::stmt_sizes::stmt_size;
use crate::threads::thread;
use crate::ways::{Exits, next_falls};
use qs_base::{NoMemory, count, sum};
use qs_calls::Parameter;
use qs_core::{CoreFunction, CoreParameter};
use qs_lower_expressions::{Exit, put};
use qs_tac::{Instruction, TacFunction};
use std::alloc::Global;

fn places(alloc: Global, parameters: &[CoreParameter]) -> Result<Vec<Parameter>, NoMemory>
    ensures { IfOk result (λ r. r.items ≡ spec.places_of parameters.now) }
{
    let mut all = Vec::new(alloc);
    for p in parameters {
        all.push(p.place)?;
    }
    Ok(all)
}

// A body that ends returns no value (C11 6.9.1p12).
fn emit_end(code: &mut Vec<Instruction>, ends: bool) -> Result<(), NoMemory>
    ensures { OnOk result (Emits code.old code.new (spec.end_code ends)) }
{
    if ends {
        Ok(())
    } else {
        put(code, Instruction::Return(None))
    }
}

// No break stands outside every loop and switch, and no continue outside every loop.
fn body_code(alloc: Global, body: &StmtPlan) -> Result<Vec<Instruction>, NoMemory>
    ensures { IfOk result (HasCode (spec.code_of_body (stmt_part body.now))) }
{
    let mut code = Vec::new(alloc);
    let end = stmt_size(body, next_falls())?;
    let nowhere = Exit::Goes(sum(end, 1)?);
    let exits = Exits {
        next: Exit::Falls(end),
        on_break: nowhere,
        on_continue: nowhere,
    };
    emit_stmt(alloc, &mut code, body, exits)?;
    emit_end(&mut code, body.ends())?;
    Ok(code)
}

/// The linear code of a function.
pub fn lower_function(alloc: Global, f: &CoreFunction) -> Result<TacFunction, NoMemory>
    ensures { IfOk result (λ r. function_tree r ≡ lowered_function (core.function_tree f.now)) }
{
    let v = count(f.variables.len())?;
    let free = sum(v, count(f.temporaries.len())?)?;
    let body = body_plan(alloc, v, free, &f.body)?;
    let temporaries = sum(free, stmt_used(&body)?)?;
    let mut code = body_code(alloc, &body)?;
    thread(alloc, &mut code)?;
    Ok(TacFunction {
        parameters: places(alloc, &f.parameters)?,
        temporaries,
        blocks: f.blocks.clone()?,
        code,
    })
}

/// The functions of a unit, in order.
pub fn lower_functions(alloc: Global, fs: &[CoreFunction]) -> Result<Vec<TacFunction>, NoMemory>
    ensures { IfOk result (spec.AreLowered fs.now) }
{
    let mut all = Vec::new(alloc);
    for f in fs {
        all.push(lower_function(alloc, f)?)?;
    }
    Ok(all)
}
