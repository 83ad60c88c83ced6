// The outline of a unit.
ghost use Rattle.std.specs.Prelude.{◌≡◌, IfOk};
ghost use Rattle.qs_core.specs.Trees.{stmts_of};
ghost use Rattle.qs_core.specs.TreeOf.{core_stmts, function_tree, function_trees, parameter_tree};
ghost use Rattle.qs_core.specs.UnitTrees.{unit_tree};
ghost use Rattle.qs_core.specs.Puts.{Puts};
ghost use Rattle.qs_core.specs.TextOf.{assign_line, call_line, if_line, return_line, seq_line, switch_line};
ghost use Rattle.qs_core.specs.TextOf as texts;
ghost use Rattle.qs_core.specs.Outline as spec;

use crate::expressions::CoreExpr;
use crate::labels::CoreLabel;
use crate::names::{put, put_count, put_number, put_temporary, put_variable, put_whole};
use crate::numbers::Target;
use crate::statements::CoreStmt;
use crate::term_text::{put_expr, put_test};
use crate::terms::literal_value;
use crate::types::type_of;
use crate::unit::CoreUnit;
use crate::units::{CoreFunction, CoreParameter};
use qs_base::NoMemory;
use qs_calls::Callee;
use qs_memory::Scalar;
use std::alloc::Global;

// ---- lines

fn put_path(out: &mut Vec<u8>, path: &[u8]) -> Result<(), NoMemory>
    ensures { Puts out.old (spec.path_text path.now) out.new result }
{
    if path.is_empty() {
        put(out, b".")
    } else {
        put(out, path)
    }
}

fn put_line(out: &mut Vec<u8>, path: &[u8], form: &[u8]) -> Result<(), NoMemory>
    ensures { Puts out.old (spec.line path.now form.now) out.new result }
{
    put_path(out, path)?;
    put(out, b" ")?;
    put(out, form)?;
    put(out, b"\n")
}

// The path of a part.
fn part_path(alloc: Global, path: &[u8], part: usize) -> Result<Vec<u8>, NoMemory>
    ensures { IfOk result (λ p. p.items ≡ spec.part_path path.now part) }
{
    let mut to = Vec::from_slice(alloc, path)?;
    put(&mut to, b".")?;
    put_count(&mut to, part)?;
    Ok(to)
}

// ---- forms

fn put_target(out: &mut Vec<u8>, f: &CoreFunction, x: Target) -> Result<(), NoMemory>
    ensures { Puts out.old (spec.target_text (function_tree f.now) x) out.new result }
{
    match x {
        Target::Variable(x) => put_variable(out, f, x),
        Target::Temporary(k) => put_temporary(out, k),
    }
}

fn put_destination(out: &mut Vec<u8>, x: Option<u32>) -> Result<(), NoMemory>
    ensures { Puts out.old (spec.destination_text x) out.new result }
{
    match x {
        None => put(out, b"-"),
        Some(k) => put_temporary(out, k),
    }
}

fn put_function_name(out: &mut Vec<u8>, functions: &[CoreFunction], f: u32) -> Result<(), NoMemory>
    ensures { Puts out.old (spec.function_text (function_trees functions.now) f) out.new result }
{
    match functions.get(f as usize) {
        None => Ok(()),
        Some(f) => put(out, f.name.bytes()),
    }
}

fn put_callee(out: &mut Vec<u8>, functions: &[CoreFunction], g: Callee) -> Result<(), NoMemory>
    ensures { Puts out.old (spec.callee_text (function_trees functions.now) g) out.new result }
{
    match g {
        Callee::Function(f) => put_function_name(out, functions, f.0),
        Callee::PutChar => put(out, b"putchar"),
        Callee::GetChar => put(out, b"getchar"),
    }
}

fn put_argument(
    alloc: Global,
    out: &mut Vec<u8>,
    f: &CoreFunction,
    e: &CoreExpr,
) -> Result<(), NoMemory>
    ensures { Puts out.old (texts.argument f.now e.now) out.new result }
{
    put(out, b" ")?;
    put_expr(alloc, out, f, e)
}

fn put_arguments(
    alloc: Global,
    out: &mut Vec<u8>,
    f: &CoreFunction,
    es: &[CoreExpr],
) -> Result<(), NoMemory>
    ensures { Puts out.old (texts.arguments f.now es.now) out.new result }
{
    for e in es {
        put_argument(alloc, out, f, e)?;
    }
    Ok(())
}

fn put_returned(
    alloc: Global,
    out: &mut Vec<u8>,
    f: &CoreFunction,
    e: &Option<CoreExpr>,
) -> Result<(), NoMemory>
    ensures { Puts out.old (texts.returned f.now e.now) out.new result }
{
    match e {
        None => Ok(()),
        Some(e) => put_argument(alloc, out, f, e),
    }
}

fn put_case(out: &mut Vec<u8>, value: i64, part: u32) -> Result<(), NoMemory>
    ensures { Puts out.old (spec.case_text value part) out.new result }
{
    put(out, b" ")?;
    put_whole(out, value)?;
    put(out, b"@")?;
    put_number(out, part)
}

fn put_default(out: &mut Vec<u8>, part: u32) -> Result<(), NoMemory>
    ensures { Puts out.old (spec.default_text part) out.new result }
{
    put(out, b" default@")?;
    put_number(out, part)
}

fn put_label(out: &mut Vec<u8>, s: Scalar, label: CoreLabel) -> Result<(), NoMemory>
    ensures { Puts out.old (spec.label_text s label) out.new result }
{
    match label {
        CoreLabel::Case { value, part } => put_case(out, literal_value(s, value), part),
        CoreLabel::Default { part } => put_default(out, part),
    }
}

fn put_labels(out: &mut Vec<u8>, s: Scalar, labels: &[CoreLabel]) -> Result<(), NoMemory>
    ensures { Puts out.old (spec.labels_text s labels.now) out.new result }
{
    for label in labels {
        put_label(out, s, *label)?;
    }
    Ok(())
}

// ---- statements

fn put_assign(
    alloc: Global,
    out: &mut Vec<u8>,
    f: &CoreFunction,
    path: &[u8],
    x: Target,
    e: &CoreExpr,
) -> Result<(), NoMemory>
    ensures { Puts out.old (assign_line f.now path.now x e.now) out.new result }
{
    put_path(out, path)?;
    put(out, b" assign ")?;
    put_target(out, f, x)?;
    put(out, b" ")?;
    put_expr(alloc, out, f, e)?;
    put(out, b"\n")
}

fn put_call(
    alloc: Global,
    out: &mut Vec<u8>,
    functions: &[CoreFunction],
    f: &CoreFunction,
    path: &[u8],
    x: Option<u32>,
    g: Callee,
    es: &[CoreExpr],
) -> Result<(), NoMemory>
    ensures { Puts out.old (call_line functions.now f.now path.now x g es.now) out.new result }
{
    put_path(out, path)?;
    put(out, b" call ")?;
    put_destination(out, x)?;
    put(out, b" ")?;
    put_callee(out, functions, g)?;
    put_arguments(alloc, out, f, es)?;
    put(out, b"\n")
}

fn put_if(
    alloc: Global,
    out: &mut Vec<u8>,
    f: &CoreFunction,
    path: &[u8],
    e: &CoreExpr,
) -> Result<(), NoMemory>
    ensures { Puts out.old (if_line f.now path.now e.now) out.new result }
{
    put_path(out, path)?;
    put(out, b" if ")?;
    put_test(alloc, out, f, e)?;
    put(out, b"\n")
}

fn put_switch(
    alloc: Global,
    out: &mut Vec<u8>,
    f: &CoreFunction,
    path: &[u8],
    e: &CoreExpr,
    labels: &[CoreLabel],
) -> Result<(), NoMemory>
    ensures { Puts out.old (switch_line f.now path.now e.now labels.now) out.new result }
{
    put_path(out, path)?;
    put(out, b" switch ")?;
    put_expr(alloc, out, f, e)?;
    put_labels(out, type_of(e), labels)?;
    put(out, b"\n")
}

fn put_return(
    alloc: Global,
    out: &mut Vec<u8>,
    f: &CoreFunction,
    path: &[u8],
    e: &Option<CoreExpr>,
) -> Result<(), NoMemory>
    ensures { Puts out.old (return_line f.now path.now e.now) out.new result }
{
    put_path(out, path)?;
    put(out, b" return")?;
    put_returned(alloc, out, f, e)?;
    put(out, b"\n")
}

fn count_of(parts: &[CoreStmt]) -> usize
    ensures { result ≡ spec.count_of (stmts_of (core_stmts parts.now)) }
{
    parts.len()
}

fn put_seq(out: &mut Vec<u8>, path: &[u8], parts: &[CoreStmt]) -> Result<(), NoMemory>
    ensures { Puts out.old (seq_line path.now parts.now) out.new result }
{
    put_path(out, path)?;
    put(out, b" seq ")?;
    put_count(out, count_of(parts))?;
    put(out, b"\n")
}

// The statements of a list, from the first on.
#[cycle(put_stmt)]
fn put_parts(
    alloc: Global,
    out: &mut Vec<u8>,
    functions: &[CoreFunction],
    f: &CoreFunction,
    path: &[u8],
    parts: &[CoreStmt],
) -> Result<(), NoMemory>
    ensures { Puts out.old (texts.parts functions.now f.now path.now parts.now) out.new result }
{
    let mut part = 0;
    for s in parts {
        put_part(alloc, out, functions, f, path, part, s)?;
        part += 1;
    }
    Ok(())
}

// The part with this number.
#[cycle(put_stmt)]
fn put_part(
    alloc: Global,
    out: &mut Vec<u8>,
    functions: &[CoreFunction],
    f: &CoreFunction,
    path: &[u8],
    part: usize,
    s: &CoreStmt,
) -> Result<(), NoMemory>
    ensures { Puts out.old (texts.part functions.now f.now path.now part s.now) out.new result }
{
    let part_path = part_path(alloc, path, part)?;
    put_stmt(alloc, out, functions, f, &part_path, s)
}

#[cycle(put_stmt)]
fn put_stmt(
    alloc: Global,
    out: &mut Vec<u8>,
    functions: &[CoreFunction],
    f: &CoreFunction,
    path: &[u8],
    s: &CoreStmt,
) -> Result<(), NoMemory>
    ensures { Puts out.old (texts.statement functions.now f.now path.now s.now) out.new result }
{
    match s {
        CoreStmt::Skip => put_line(out, path, b"skip"),
        CoreStmt::Seq(parts) => {
            put_seq(out, path, parts)?;
            put_parts(alloc, out, functions, f, path, parts)
        }
        CoreStmt::Assign(x, e) => put_assign(alloc, out, f, path, *x, e),
        CoreStmt::Store(_, _, _) => put_line(out, path, b"store"),
        CoreStmt::Copy { .. } => put_line(out, path, b"copy"),
        CoreStmt::Fill(_, _) => put_line(out, path, b"fill"),
        CoreStmt::Call(x, g, es) => put_call(alloc, out, functions, f, path, *x, *g, es),
        CoreStmt::If(e, a, b) => {
            put_if(alloc, out, f, path, e)?;
            put_part(alloc, out, functions, f, path, 0, a)?;
            put_part(alloc, out, functions, f, path, 1, b)
        }
        CoreStmt::Loop(body, step) => {
            put_line(out, path, b"loop")?;
            put_part(alloc, out, functions, f, path, 0, body)?;
            put_part(alloc, out, functions, f, path, 1, step)
        }
        CoreStmt::Switch(e, labels, parts) => {
            put_switch(alloc, out, f, path, e, labels)?;
            put_parts(alloc, out, functions, f, path, parts)
        }
        CoreStmt::Break => put_line(out, path, b"break"),
        CoreStmt::Continue => put_line(out, path, b"continue"),
        CoreStmt::Return(e) => put_return(alloc, out, f, path, e),
    }
}

// ---- functions

fn put_parameter(out: &mut Vec<u8>, p: &CoreParameter) -> Result<(), NoMemory>
    ensures { Puts out.old (spec.parameter_text (parameter_tree p.now)) out.new result }
{
    put(out, b" ")?;
    put(out, p.name.bytes())
}

fn put_parameters(out: &mut Vec<u8>, ps: &[CoreParameter]) -> Result<(), NoMemory>
    ensures { Puts out.old (texts.all_parameters ps.now) out.new result }
{
    for p in ps {
        put_parameter(out, p)?;
    }
    Ok(())
}

fn put_heading(out: &mut Vec<u8>, f: &CoreFunction) -> Result<(), NoMemory>
    ensures { Puts out.old (spec.heading (function_tree f.now)) out.new result }
{
    put(out, b"function ")?;
    put(out, f.name.bytes())?;
    put_parameters(out, &f.parameters)?;
    put(out, b"\n")
}

fn put_function(
    alloc: Global,
    out: &mut Vec<u8>,
    functions: &[CoreFunction],
    f: &CoreFunction,
) -> Result<(), NoMemory>
    ensures { Puts out.old (texts.function functions.now f.now) out.new result }
{
    put_heading(out, f)?;
    put_seq(out, b"", &f.body)?;
    put_parts(alloc, out, functions, f, b"", &f.body)
}

fn put_functions(
    alloc: Global,
    out: &mut Vec<u8>,
    functions: &[CoreFunction],
) -> Result<(), NoMemory>
    ensures { Puts out.old (texts.all_functions functions.now) out.new result }
{
    for f in functions {
        put_function(alloc, out, functions, f)?;
    }
    Ok(())
}

/// The outline of a unit: a line for each function with its parameters, and below it a line for
/// each of its statements, with its path and its form.
pub fn print_outline(alloc: Global, unit: &CoreUnit) -> Result<Vec<u8>, NoMemory>
    ensures { IfOk result (λ text. text.items ≡ spec.outline (unit_tree unit.now)) }
{
    let mut out = Vec::new(alloc);
    put_functions(alloc, &mut out, &unit.functions)?;
    Ok(out)
}
