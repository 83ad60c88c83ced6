// The locals of a function (C11 6.8, 6.9.1).
ghost use Rattle.std.specs.Prelude.{map};
ghost use Rattle.qs_meaning.specs.Units.{parameter_by};
ghost use Rattle.qs_syntax.specs.TreeOf.{else_tree, parameter_tree, start_tree, stmt_tree};
ghost use Rattle.qs_syntax.specs.TreeOf.{stmts_tree, variable_tree};
ghost use Rattle.qs_meaning.specs.Typed.{object};
ghost use Rattle.qs_typed_nodes.specs.KnownFunctions.{else_nodes, parameter_known, parameters_known};
ghost use Rattle.qs_typed_nodes.specs.KnownFunctions.{parameters_nodes, start_nodes, statement_nodes};
ghost use Rattle.qs_typed_nodes.specs.KnownFunctions.{statements_nodes, variables_nodes};
ghost use Rattle.qs_typed_nodes.specs.KnownOf.{Knows};
ghost use Rattle.qs_typed_forms.specs.Results.{Adds, Gives, elements, itself};
ghost use Rattle.qs_typed_trees.specs.TreeOf.{expression_tree, lvalue_tree};

use qs_base::NoMemory;
use qs_calls::Parameter;
use qs_memory::Scalar;
use qs_syntax::{Parameter as ParameterNode, Start, Stmt, Variable};
use qs_typed_nodes::{Known, local_lvalue};
use qs_typed_trees::{Expression, Lvalue, Object, scalar_of};
use std::alloc::Global;

// ---- the nodes of the locals that a body declares, in the order of the text

fn variables_nodes(vs: &[Variable], nodes: &mut Vec<u32>) -> Result<(), NoMemory>
    ensures { Adds (variables_nodes (map variable_tree vs.now)) nodes.old nodes.new result }
{
    for v in vs {
        nodes.push(v.declarator.node.id)?;
    }
    Ok(())
}

/// Adds the nodes of parameters. Want of memory is the other answer.
pub fn parameters_nodes(ps: &[ParameterNode], nodes: &mut Vec<u32>) -> Result<(), NoMemory>
    ensures { Adds (parameters_nodes (map parameter_tree ps.now)) nodes.old nodes.new result }
{
    for p in ps {
        nodes.push(p.node.id)?;
    }
    Ok(())
}

fn start_nodes(start: &Start, nodes: &mut Vec<u32>) -> Result<(), NoMemory>
    ensures { Adds (start_nodes (start_tree start.now)) nodes.old nodes.new result }
{
    match start {
        Start::Nothing => Ok(()),
        Start::Expression(_) => Ok(()),
        Start::Declaration(d) => variables_nodes(&d.variables, nodes),
    }
}

#[cycle(nodes)]
fn statement_nodes(s: &Stmt, nodes: &mut Vec<u32>) -> Result<(), NoMemory>
    ensures { Adds (statement_nodes (stmt_tree s.now)) nodes.old nodes.new result }
{
    match s {
        Stmt::Empty(_) => Ok(()),
        Stmt::Expression(_, _) => Ok(()),
        Stmt::Declaration(d) => variables_nodes(&d.variables, nodes),
        Stmt::Block(items) => statements_nodes(items, nodes),
        Stmt::If {
            then,
            otherwise,
            ..
        } => {
            statement_nodes(then, nodes)?;
            else_nodes(otherwise, nodes)
        }
        Stmt::Switch { items, .. } => statements_nodes(items, nodes),
        Stmt::Case(_, _) => Ok(()),
        Stmt::Default(_) => Ok(()),
        Stmt::While { body, .. } => statement_nodes(body, nodes),
        Stmt::Do { body, .. } => statement_nodes(body, nodes),
        Stmt::For { start, body, .. } => {
            start_nodes(start, nodes)?;
            statement_nodes(body, nodes)
        }
        Stmt::Break(_) => Ok(()),
        Stmt::Continue(_) => Ok(()),
        Stmt::Return(_, _) => Ok(()),
    }
}

#[cycle(nodes)]
fn else_nodes(s: &Option<Box<Stmt>>, nodes: &mut Vec<u32>) -> Result<(), NoMemory>
    ensures { Adds (else_nodes (else_tree s.now)) nodes.old nodes.new result }
{
    match s {
        None => Ok(()),
        Some(s) => statement_nodes(s, nodes),
    }
}

/// Adds the nodes of the locals that these statements declare.
#[cycle(nodes)]
pub fn statements_nodes(ss: &[Stmt], nodes: &mut Vec<u32>) -> Result<(), NoMemory>
    ensures { Adds (statements_nodes (stmts_tree ss.now)) nodes.old nodes.new result }
{
    for s in ss {
        statement_nodes(s, nodes)?;
    }
    Ok(())
}

// ---- parameters (C11 6.9.1p9, p10)

fn placed_parameter(scalar: Scalar, address: &Expression) -> Result<Parameter, NoMemory>
    ensures { Gives itself (parameter_by scalar (object (expression_tree address.now))) result }
{
    match address {
        Expression::PointerTo(object) => match object {
            Object::Local(k) => Ok(Parameter::Placed(*k, scalar)),
            Object::Static(_) => Err(NoMemory),
        },
        _ => Err(NoMemory),
    }
}

/// Where a call puts an argument.
fn parameter_by(scalar: Scalar, l: &Lvalue) -> Result<Parameter, NoMemory>
    ensures { Gives itself (parameter_by scalar (lvalue_tree l.now)) result }
{
    match l {
        Lvalue::Variable(x) => Ok(Parameter::Plain(*x)),
        Lvalue::Object(address) => placed_parameter(scalar, address),
    }
}

fn parameter(alloc: Global, k: &Known<'_>, p: &ParameterNode) -> Result<Parameter, NoMemory>
    ensures { Knows itself parameter_known k.now (parameter_tree p.now) result }
{
    let t = k.type_at(p.node.id)?;
    let l = local_lvalue(alloc, k.locals, p.node.id)?;
    parameter_by(scalar_of(t), &l)
}

/// Where a call puts its arguments. Want of memory is the other answer.
pub fn parameters(
    alloc: Global,
    k: &Known<'_>,
    ps: &[ParameterNode],
) -> Result<Vec<Parameter>, NoMemory>
    ensures { Knows elements parameters_known k.now (map parameter_tree ps.now) result }
{
    let mut all = Vec::new(alloc);
    for p in ps {
        all.push(parameter(alloc, k, p)?)?;
    }
    Ok(all)
}
