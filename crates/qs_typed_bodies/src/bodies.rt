// The typed tree of statements (C11 6.8).
ghost use Rattle.std.specs.Prelude.{◌≡◌};
ghost use Rattle.qs_meaning.specs.Conversions.{scalar_of};
ghost use Rattle.qs_types.specs.Conversions.{decayed, promoted};
ghost use Rattle.qs_types.specs.TypeOf.{type_tree};
ghost use Rattle.qs_syntax.specs.TreeOf.{else_tree, expr_tree, option_tree, start_tree, stmt_tree};
ghost use Rattle.qs_syntax.specs.TreeOf.{stmts_tree};
ghost use Rattle.qs_typed_nodes.specs.KnownOf.{Knows};
ghost use Rattle.qs_typed_nodes.specs.KnownStatements.{case_known, condition_known, effect_known};
ghost use Rattle.qs_typed_nodes.specs.KnownStatements.{else_known, promotion};
ghost use Rattle.qs_typed_nodes.specs.KnownStatements.{option_condition_known, option_effect_known};
ghost use Rattle.qs_typed_nodes.specs.KnownStatements.{return_known, start_known, statement_known};
ghost use Rattle.qs_typed_nodes.specs.KnownStatements.{statements_known};
ghost use Rattle.qs_typed_forms.specs.Results.{listed};
ghost use Rattle.qs_typed_trees.specs.TreeOf.{conversion_tree, effect_tree, expression_tree};
ghost use Rattle.qs_typed_trees.specs.TreeOf.{option_expression};
ghost use Rattle.qs_typed_trees.specs.TreeOf.{statement_tree, statements_tree};

use crate::initialisers::variables;
use crate::typed::typed;
use qs_base::NoMemory;
use qs_memory::Scalar;
use qs_syntax::{Expr, Start, Stmt};
use qs_typed_forms::{between, effect_in_use, value_in_use};
use qs_typed_nodes::Known;
use qs_typed_trees::{Conversion, Effect, Expression, Statement, scalar_of};
use qs_types::CType;
use std::alloc::Global;

// ---- expressions in statements

/// An expression is evaluated for its effect (C11 6.8.3p2).
fn effect(alloc: Global, k: &Known<'_>, e: &Expr) -> Result<Effect, NoMemory>
    ensures { Knows effect_tree effect_known k.now (expr_tree e.now) result }
{
    let a = typed(alloc, k, e)?;
    effect_in_use(alloc, a)
}

fn option_effect(alloc: Global, k: &Known<'_>, e: &Option<Expr>) -> Result<Effect, NoMemory>
    ensures { Knows effect_tree option_effect_known k.now (option_tree e.now) result }
{
    match e {
        None => Ok(Effect::Nothing),
        Some(e) => effect(alloc, k, e),
    }
}

/// A condition is compared with 0 (C11 6.8.4.1p2, 6.8.5p4).
fn condition(alloc: Global, k: &Known<'_>, e: &Expr) -> Result<Expression, NoMemory>
    ensures { Knows expression_tree condition_known k.now (expr_tree e.now) result }
{
    let a = typed(alloc, k, e)?;
    value_in_use(alloc, a)
}

fn option_condition(
    alloc: Global,
    k: &Known<'_>,
    e: &Option<Expr>,
) -> Result<Option<Expression>, NoMemory>
    ensures { Knows option_expression option_condition_known k.now (option_tree e.now) result }
{
    match e {
        None => Ok(None),
        Some(e) => {
            let c = condition(alloc, k, e)?;
            Ok(Some(c))
        }
    }
}

/// The first part of a `for` (C11 6.8.5.3).
fn start(alloc: Global, k: &Known<'_>, start: &Start) -> Result<Effect, NoMemory>
    ensures { Knows effect_tree start_known k.now (start_tree start.now) result }
{
    match start {
        Start::Nothing => Ok(Effect::Nothing),
        Start::Expression(e) => effect(alloc, k, e),
        Start::Declaration(d) => variables(alloc, k, &d.variables),
    }
}

/// The value is converted to the type of the result (C11 6.8.6.4p3).
#[tactic(auto, using(qs_typed_operators::proofs::OperationTypes::scalar_in_use))]
fn returned(alloc: Global, k: &Known<'_>, e: &Option<Expr>) -> Result<Statement, NoMemory>
    ensures { Knows statement_tree return_known k.now (option_tree e.now) result }
{
    match e {
        None => Ok(Statement::ReturnNothing),
        Some(e) => {
            let a = typed(alloc, k, e)?;
            let conversion = between(scalar_of(a.of), k.result);
            let value = value_in_use(alloc, a)?;
            Ok(Statement::Return(conversion, value))
        }
    }
}

// ---- switches

/// The scalar type of an operand that is promoted (C11 6.3.1.1p2).
fn promoted_scalar(t: &CType) -> Scalar
    ensures { result ≡ scalar_of (promoted (decayed (type_tree t.now))) }
{
    match t {
        CType::Int => Scalar::Int,
        CType::Unsigned => Scalar::Unsigned,
        CType::Char => Scalar::Int,
        CType::Void => Scalar::Int,
        CType::Pointer(_) => Scalar::Int,
        CType::Array(_, _) => Scalar::Int,
        CType::Struct(_) => Scalar::Int,
    }
}

/// The operand of a switch is promoted (C11 6.8.4.2p5).
#[tactic(auto, using(qs_typed_operators::proofs::OperationTypes::scalar_in_use))]
fn promotion(t: &CType) -> Conversion
    ensures { conversion_tree result ≡ promotion (decayed (type_tree t.now)) }
{
    between(scalar_of(t), promoted_scalar(t))
}

/// The value of a label, converted to the promoted type of the operand (C11 6.8.4.2p5).
fn case(k: &Known<'_>, e: &Expr) -> Result<Statement, NoMemory>
    ensures { Knows statement_tree case_known k.now (expr_tree e.now) result }
{
    match qs_types::value(k.env, k.type_names, e) {
        None => Err(NoMemory),
        Some(n) => Ok(Statement::Case(n)),
    }
}

// ---- statements

/// A statement.
#[cycle(statement)]
fn statement(alloc: Global, k: &Known<'_>, s: &Stmt) -> Result<Statement, NoMemory>
    ensures { Knows statement_tree statement_known k.now (stmt_tree s.now) result }
{
    match s {
        Stmt::Empty(_) => Ok(Statement::Evaluate(Effect::Nothing)),
        Stmt::Expression(_, e) => {
            let a = effect(alloc, k, e)?;
            Ok(Statement::Evaluate(a))
        }
        Stmt::Declaration(d) => {
            let a = variables(alloc, k, &d.variables)?;
            Ok(Statement::Evaluate(a))
        }
        Stmt::Block(items) => {
            let items = statements(alloc, k, items)?;
            Ok(Statement::Block(items))
        }
        Stmt::If {
            condition: c,
            then,
            otherwise,
            ..
        } => {
            let c = condition(alloc, k, c)?;
            let a = statement(alloc, k, then)?;
            let b = otherwise_of(alloc, k, otherwise)?;
            Ok(Statement::Branch {
                condition: c,
                then: Box::new(alloc, a)?,
                otherwise: Box::new(alloc, b)?,
            })
        }
        Stmt::Switch { operand, items, .. } => {
            let a = typed(alloc, k, operand)?;
            let promotion = promotion(a.of);
            let operand = value_in_use(alloc, a)?;
            let items = statements(alloc, k, items)?;
            Ok(Statement::Switch {
                promotion,
                operand,
                items,
            })
        }
        Stmt::Case(_, e) => case(k, e),
        Stmt::Default(_) => Ok(Statement::Default),
        Stmt::While {
            condition: c,
            body,
            ..
        } => {
            let c = condition(alloc, k, c)?;
            let a = statement(alloc, k, body)?;
            Ok(Statement::WhileLoop(c, Box::new(alloc, a)?))
        }
        Stmt::Do {
            body,
            condition: c,
            ..
        } => {
            let a = statement(alloc, k, body)?;
            let c = condition(alloc, k, c)?;
            Ok(Statement::DoLoop(Box::new(alloc, a)?, c))
        }
        Stmt::For {
            start: first,
            condition: c,
            step,
            body,
            ..
        } => {
            let start = start(alloc, k, first)?;
            let condition = option_condition(alloc, k, c)?;
            let step = option_effect(alloc, k, step)?;
            let a = statement(alloc, k, body)?;
            Ok(Statement::ForLoop {
                start,
                condition,
                step,
                body: Box::new(alloc, a)?,
            })
        }
        Stmt::Break(_) => Ok(Statement::Break),
        Stmt::Continue(_) => Ok(Statement::Continue),
        Stmt::Return(_, e) => returned(alloc, k, e),
    }
}

#[cycle(statement)]
fn otherwise_of(alloc: Global, k: &Known<'_>, s: &Option<Box<Stmt>>) -> Result<Statement, NoMemory>
    ensures { Knows statement_tree else_known k.now (else_tree s.now) result }
{
    match s {
        None => Ok(Statement::Evaluate(Effect::Nothing)),
        Some(s) => statement(alloc, k, s),
    }
}

/// The statements of a block.
#[cycle(statement)]
pub fn statements(alloc: Global, k: &Known<'_>, ss: &[Stmt]) -> Result<Vec<Statement>, NoMemory>
    ensures { Knows (listed statements_tree) statements_known k.now (stmts_tree ss.now) result }
{
    let mut all = Vec::new(alloc);
    for s in ss {
        all.push(statement(alloc, k, s)?)?;
    }
    Ok(all)
}
