// Which locals and parameters are operands of `&` in a body (C11 6.5.3.2).
ghost use Rattle.std.specs.Prelude.{map};
ghost use Rattle.qs_syntax.specs.TreeOf.{else_tree, expr_tree, exprs_tree, option_tree, shape_tree};
ghost use Rattle.qs_syntax.specs.TreeOf.{start_tree, stmt_tree, stmts_tree, variable_tree};
ghost use Rattle.qs_typed_units.specs.Addressed.{addressed_known, all_addressed, each_addressed};
ghost use Rattle.qs_typed_units.specs.Addressed.{else_addressed, local_named, name_known};
ghost use Rattle.qs_typed_units.specs.Addressed.{option_addressed, shape_addressed, start_addressed};
ghost use Rattle.qs_typed_units.specs.Addressed.{statement_addressed, statements_addressed};
ghost use Rattle.qs_typed_units.specs.Addressed.{variable_addressed};
ghost use Rattle.qs_typed_units.specs.AddressedOf.{initial_operands, initialiser_operands};
ghost use Rattle.qs_typed_units.specs.AddressedOf.{initialisers_operands, operand_in, variables_operands};
ghost use Rattle.qs_typed_forms.specs.Results.{Adds};

use qs_base::NoMemory;
use qs_syntax::{Expr, Initialiser, Shape, Start, Stmt, Variable};
use qs_syntax_vocabulary::UnaryOperator;
use qs_typed_nodes::referent_in;
use qs_types::Referent;

// ---- expressions

fn local_named(referent: Option<Referent>, nodes: &mut Vec<u32>) -> Result<(), NoMemory>
    ensures { Adds (local_named referent) nodes.old nodes.new result }
{
    match referent {
        None => Ok(()),
        Some(referent) => match referent {
            Referent::Local(node) => {
                nodes.push(node)?;
                Ok(())
            }
            Referent::File(_) => Ok(()),
            Referent::Function(_) => Ok(()),
            Referent::PutChar => Ok(()),
            Referent::GetChar => Ok(()),
        },
    }
}

/// Of the operand of `&`, where it is a name.
fn name_known(names: &[Option<Referent>], e: &Expr, nodes: &mut Vec<u32>) -> Result<(), NoMemory>
    ensures { Adds (name_known names.now (expr_tree e.now)) nodes.old nodes.new result }
{
    match &e.shape {
        Shape::Name(_) => local_named(referent_in(names, e.node.id), nodes),
        _ => Ok(()),
    }
}

fn operand_of(
    operator: UnaryOperator,
    names: &[Option<Referent>],
    e: &Expr,
    nodes: &mut Vec<u32>,
) -> Result<(), NoMemory>
    ensures { Adds (operand_in operator names.now e.now) nodes.old nodes.new result }
{
    match operator {
        UnaryOperator::Address => name_known(names, e, nodes),
        UnaryOperator::Indirect => Ok(()),
        UnaryOperator::Plus => Ok(()),
        UnaryOperator::Minus => Ok(()),
        UnaryOperator::Complement => Ok(()),
        UnaryOperator::Not => Ok(()),
    }
}

#[cycle(addressed)]
fn addressed_known(
    names: &[Option<Referent>],
    e: &Expr,
    nodes: &mut Vec<u32>,
) -> Result<(), NoMemory>
    ensures { Adds (addressed_known names.now (expr_tree e.now)) nodes.old nodes.new result }
{
    shape_addressed(names, &e.shape, nodes)
}

#[cycle(addressed)]
fn shape_addressed(
    names: &[Option<Referent>],
    shape: &Shape,
    nodes: &mut Vec<u32>,
) -> Result<(), NoMemory>
    ensures { Adds (shape_addressed names.now (shape_tree shape.now)) nodes.old nodes.new result }
{
    match shape {
        Shape::Constant(_, _) => Ok(()),
        Shape::Text(_) => Ok(()),
        Shape::Name(_) => Ok(()),
        Shape::Unary(operator, a) => {
            operand_of(*operator, names, a, nodes)?;
            addressed_known(names, a, nodes)
        }
        Shape::Step(_, a) => addressed_known(names, a, nodes),
        Shape::Cast(_, a) => addressed_known(names, a, nodes),
        Shape::SizeofType(_) => Ok(()),
        Shape::SizeofExpr(a) => addressed_known(names, a, nodes),
        Shape::Binary {
            operator: _,
            left,
            right,
        } => {
            addressed_known(names, left, nodes)?;
            addressed_known(names, right, nodes)
        }
        Shape::Assign {
            operator: _,
            left,
            right,
        } => {
            addressed_known(names, left, nodes)?;
            addressed_known(names, right, nodes)
        }
        Shape::Conditional {
            condition,
            then,
            otherwise,
        } => {
            addressed_known(names, condition, nodes)?;
            addressed_known(names, then, nodes)?;
            addressed_known(names, otherwise, nodes)
        }
        Shape::Comma(a, b) => {
            addressed_known(names, a, nodes)?;
            addressed_known(names, b, nodes)
        }
        Shape::Subscript(a, b) => {
            addressed_known(names, a, nodes)?;
            addressed_known(names, b, nodes)
        }
        Shape::Member {
            access: _,
            object,
            name: _,
        } => addressed_known(names, object, nodes),
        Shape::Call(_, es) => all_addressed(names, es, nodes),
    }
}

#[cycle(addressed)]
fn all_addressed(
    names: &[Option<Referent>],
    es: &[Expr],
    nodes: &mut Vec<u32>,
) -> Result<(), NoMemory>
    ensures { Adds (all_addressed names.now (exprs_tree es.now)) nodes.old nodes.new result }
{
    for e in es {
        addressed_known(names, e, nodes)?;
    }
    Ok(())
}

fn option_addressed(
    names: &[Option<Referent>],
    e: &Option<Expr>,
    nodes: &mut Vec<u32>,
) -> Result<(), NoMemory>
    ensures { Adds (option_addressed names.now (option_tree e.now)) nodes.old nodes.new result }
{
    match e {
        None => Ok(()),
        Some(e) => addressed_known(names, e, nodes),
    }
}

fn each_addressed(
    names: &[Option<Referent>],
    es: &[Expr],
    nodes: &mut Vec<u32>,
) -> Result<(), NoMemory>
    ensures { Adds (each_addressed names.now (map expr_tree es.now)) nodes.old nodes.new result }
{
    for e in es {
        addressed_known(names, e, nodes)?;
    }
    Ok(())
}

// ---- declarations

#[cycle(initial)]
fn initialiser_addressed(
    names: &[Option<Referent>],
    i: &Initialiser,
    nodes: &mut Vec<u32>,
) -> Result<(), NoMemory>
    ensures { Adds (initialiser_operands names.now i.now) nodes.old nodes.new result }
{
    match i {
        Initialiser::Value(e) => addressed_known(names, e, nodes),
        Initialiser::List(list) => initialisers_addressed(names, &list.items, nodes),
    }
}

#[cycle(initial)]
fn initialisers_addressed(
    names: &[Option<Referent>],
    is: &[Initialiser],
    nodes: &mut Vec<u32>,
) -> Result<(), NoMemory>
    ensures { Adds (initialisers_operands names.now is.now) nodes.old nodes.new result }
{
    for i in is {
        initialiser_addressed(names, i, nodes)?;
    }
    Ok(())
}

fn initial_addressed(
    names: &[Option<Referent>],
    i: &Option<Initialiser>,
    nodes: &mut Vec<u32>,
) -> Result<(), NoMemory>
    ensures { Adds (initial_operands names.now i.now) nodes.old nodes.new result }
{
    match i {
        None => Ok(()),
        Some(i) => initialiser_addressed(names, i, nodes),
    }
}

fn variable_addressed(
    names: &[Option<Referent>],
    v: &Variable,
    nodes: &mut Vec<u32>,
) -> Result<(), NoMemory>
    ensures { Adds (variable_addressed names.now (variable_tree v.now)) nodes.old nodes.new result }
{
    each_addressed(names, &v.declarator.lengths.given, nodes)?;
    initial_addressed(names, &v.initialiser, nodes)
}

fn variables_addressed(
    names: &[Option<Referent>],
    vs: &[Variable],
    nodes: &mut Vec<u32>,
) -> Result<(), NoMemory>
    ensures { Adds (variables_operands names.now vs.now) nodes.old nodes.new result }
{
    for v in vs {
        variable_addressed(names, v, nodes)?;
    }
    Ok(())
}

// ---- statements

fn start_addressed(
    names: &[Option<Referent>],
    start: &Start,
    nodes: &mut Vec<u32>,
) -> Result<(), NoMemory>
    ensures { Adds (start_addressed names.now (start_tree start.now)) nodes.old nodes.new result }
{
    match start {
        Start::Nothing => Ok(()),
        Start::Expression(e) => addressed_known(names, e, nodes),
        Start::Declaration(d) => variables_addressed(names, &d.variables, nodes),
    }
}

#[cycle(statements)]
fn statement_addressed(
    names: &[Option<Referent>],
    s: &Stmt,
    nodes: &mut Vec<u32>,
) -> Result<(), NoMemory>
    ensures { Adds (statement_addressed names.now (stmt_tree s.now)) nodes.old nodes.new result }
{
    match s {
        Stmt::Empty(_) => Ok(()),
        Stmt::Expression(_, e) => addressed_known(names, e, nodes),
        Stmt::Declaration(d) => variables_addressed(names, &d.variables, nodes),
        Stmt::Block(items) => statements_addressed(names, items, nodes),
        Stmt::If {
            node: _,
            condition,
            then,
            otherwise,
        } => {
            addressed_known(names, condition, nodes)?;
            statement_addressed(names, then, nodes)?;
            else_addressed(names, otherwise, nodes)
        }
        Stmt::Switch {
            node: _,
            operand,
            items,
        } => {
            addressed_known(names, operand, nodes)?;
            statements_addressed(names, items, nodes)
        }
        Stmt::Case(_, e) => addressed_known(names, e, nodes),
        Stmt::Default(_) => Ok(()),
        Stmt::While {
            node: _,
            condition,
            body,
        } => {
            addressed_known(names, condition, nodes)?;
            statement_addressed(names, body, nodes)
        }
        Stmt::Do {
            node: _,
            body,
            condition,
        } => {
            statement_addressed(names, body, nodes)?;
            addressed_known(names, condition, nodes)
        }
        Stmt::For {
            node: _,
            start,
            condition,
            step,
            body,
        } => {
            start_addressed(names, start, nodes)?;
            option_addressed(names, condition, nodes)?;
            option_addressed(names, step, nodes)?;
            statement_addressed(names, body, nodes)
        }
        Stmt::Break(_) => Ok(()),
        Stmt::Continue(_) => Ok(()),
        Stmt::Return(_, e) => option_addressed(names, e, nodes),
    }
}

#[cycle(statements)]
fn else_addressed(
    names: &[Option<Referent>],
    s: &Option<Box<Stmt>>,
    nodes: &mut Vec<u32>,
) -> Result<(), NoMemory>
    ensures { Adds (else_addressed names.now (else_tree s.now)) nodes.old nodes.new result }
{
    match s {
        None => Ok(()),
        Some(s) => statement_addressed(names, s, nodes),
    }
}

/// Adds the locals and parameters whose names are operands of `&` in these statements, by the
/// numbers of the nodes of their declarations, in the order of the text. Want of memory is the
/// other answer.
#[cycle(statements)]
pub fn statements_addressed(
    names: &[Option<Referent>],
    ss: &[Stmt],
    nodes: &mut Vec<u32>,
) -> Result<(), NoMemory>
    ensures { Adds (statements_addressed names.now (stmts_tree ss.now)) nodes.old nodes.new result }
{
    for s in ss {
        statement_addressed(names, s, nodes)?;
    }
    Ok(())
}
