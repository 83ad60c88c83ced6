// What a function declares, in the order of the text: parameters and variables.
ghost use Rattle.std.specs.Prelude.{◌≡◌, [], ◌∷◌, IfOk, map};
ghost use Rattle.qs_syntax.specs.TreeOf.{variable_tree, parameter_tree, start_tree, stmt_tree};
ghost use Rattle.qs_syntax.specs.TreeOf.{stmts_tree, else_tree};
ghost use Rattle.qs_elaborate_bodies.specs.Names.{declared_variable, start_declares, statement_declares};
ghost use Rattle.qs_elaborate_bodies.specs.Names.{statements_declare, else_declares, parameter_name};
ghost use Rattle.qs_elaborate_bodies.specs.Names.{declared_parameter};
ghost use Rattle.qs_elaborate.specs.DeclaredOf.{declared_of, declared_variables};
ghost use Rattle.qs_elaborate.specs.DeclaredOf.{declared_parameters, declared_in, Declares};

use crate::names::Declared;
use qs_base::{Name, NoMemory};
use qs_syntax::{Function, Parameter, Start, Stmt, Variable};
use std::alloc::Global;

fn put_variable(alloc: Global, out: &mut Vec<Declared>, v: &Variable) -> Result<(), NoMemory>
    ensures { Declares (declared_variable (variable_tree v.now) ∷ []) out.old out.new result }
{
    let node = v.declarator.node.id;
    let name = v.declarator.name.copy(alloc)?;
    out.push(Declared { node, name })?;
    Ok(())
}

fn put_variables(alloc: Global, out: &mut Vec<Declared>, vs: &[Variable]) -> Result<(), NoMemory>
    ensures { Declares (declared_variables vs.now) out.old out.new result }
{
    for v in vs {
        put_variable(alloc, out, v)?;
    }
    Ok(())
}

/// The name of a parameter; those of a body have one (C11 6.9.1p5).
pub fn parameter_name(alloc: Global, name: &Option<Name>) -> Result<Name, NoMemory>
    ensures { IfOk result (λ n. n ≡ parameter_name name.now) }
{
    match name {
        None => Name::new(alloc, b""),
        Some(name) => name.copy(alloc),
    }
}

fn put_parameter(alloc: Global, out: &mut Vec<Declared>, p: &Parameter) -> Result<(), NoMemory>
    ensures { Declares (declared_parameter (parameter_tree p.now) ∷ []) out.old out.new result }
{
    let node = p.node.id;
    let name = parameter_name(alloc, &p.name)?;
    out.push(Declared { node, name })?;
    Ok(())
}

fn put_parameters(alloc: Global, out: &mut Vec<Declared>, ps: &[Parameter]) -> Result<(), NoMemory>
    ensures { Declares (declared_parameters ps.now) out.old out.new result }
{
    for p in ps {
        put_parameter(alloc, out, p)?;
    }
    Ok(())
}

fn put_start(alloc: Global, out: &mut Vec<Declared>, s: &Start) -> Result<(), NoMemory>
    ensures { Declares (start_declares (start_tree s.now)) out.old out.new result }
{
    match s {
        Start::Nothing => Ok(()),
        Start::Expression(_) => Ok(()),
        Start::Declaration(d) => put_variables(alloc, out, &d.variables),
    }
}

#[cycle(put_statement)]
fn put_statement(s: &Stmt, alloc: Global, out: &mut Vec<Declared>) -> Result<(), NoMemory>
    ensures { Declares (statement_declares (stmt_tree s.now)) out.old out.new result }
{
    match s {
        Stmt::Empty(_) => Ok(()),
        Stmt::Expression(_, _) => Ok(()),
        Stmt::Declaration(d) => put_variables(alloc, out, &d.variables),
        Stmt::Block(ss) => put_statements(ss, alloc, out),
        Stmt::Switch { items, .. } => put_statements(items, alloc, out),
        Stmt::Case(_, _) => Ok(()),
        Stmt::Default(_) => Ok(()),
        Stmt::If {
            then,
            otherwise,
            ..
        } => {
            put_statement(then, alloc, out)?;
            put_else(otherwise, alloc, out)
        }
        Stmt::While { body, .. } => put_statement(body, alloc, out),
        Stmt::Do { body, .. } => put_statement(body, alloc, out),
        Stmt::For { start, body, .. } => {
            put_start(alloc, out, start)?;
            put_statement(body, alloc, out)
        }
        Stmt::Break(_) => Ok(()),
        Stmt::Continue(_) => Ok(()),
        Stmt::Return(_, _) => Ok(()),
    }
}

#[cycle(put_statement)]
fn put_else(s: &Option<Box<Stmt>>, alloc: Global, out: &mut Vec<Declared>) -> Result<(), NoMemory>
    ensures { Declares (else_declares (else_tree s.now)) out.old out.new result }
{
    match s {
        None => Ok(()),
        Some(s) => put_statement(s, alloc, out),
    }
}

#[cycle(put_statement)]
fn put_statements(ss: &[Stmt], alloc: Global, out: &mut Vec<Declared>) -> Result<(), NoMemory>
    ensures { Declares (statements_declare (stmts_tree ss.now)) out.old out.new result }
{
    for s in ss {
        put_statement(s, alloc, out)?;
    }
    Ok(())
}

/// What a function with this body declares.
pub fn function_declares(
    alloc: Global,
    f: &Function,
    body: &[Stmt],
) -> Result<Vec<Declared>, NoMemory>
    ensures { IfOk result (λ ds. map declared_of ds.items ≡ declared_in f.now body.now) }
{
    let mut declared = Vec::new(alloc);
    put_parameters(alloc, &mut declared, &f.parameters)?;
    put_statements(body, alloc, &mut declared)?;
    Ok(declared)
}
