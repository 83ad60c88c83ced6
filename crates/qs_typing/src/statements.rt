// Statements (C11 6.8).
ghost use Rattle.std.specs.Prelude.{◌≡◌, IfOk, OnOk, option_map};
ghost use Rattle.qs_syntax.specs.TreeOf.{option_tree};
ghost use Rattle.qs_types.specs.TypeOf.{type_tree};
ghost use Rattle.qs_typing_findings.specs.ContextOf.{context_tree};
ghost use Rattle.qs_typing_findings.specs.Statements.{typed_by};
ghost use Rattle.qs_typing.specs.StatementWalks.{WalksDiscarded, WalksDo, WalksFor, WalksIf};
ghost use Rattle.qs_typing.specs.StatementWalks.{WalksWhile, IsConditionTest, IsHeadTest};
ghost use Rattle.qs_typing.specs.StatementWalks.{IsOptionType, IsReturnTest, IsReturned};
ghost use Rattle.qs_typing.specs.StatementWalks.{IsStartTyped, JudgesJump, JudgesOne, KnowsStart};
ghost use Rattle.qs_typing.specs.StatementWalks.{KnowsStatement, KnowsStatements, WalksBlock};
ghost use Rattle.qs_typing.specs.StatementWalks.{WalksBody, WalksCondition, WalksElse, WalksHead};
ghost use Rattle.qs_typing.specs.StatementWalks.{WalksOption, WalksPart, WalksReturn, WalksStart};
ghost use Rattle.qs_typing.specs.StatementWalks.{WalksStatement, WalksStatements};
ghost use Rattle.qs_typing.specs.SwitchWalks.{WalksSwitch};

use crate::switches::{walk_case, walk_default, walk_operand};
use crate::variables::walk_variables;
use qs_base::NoMemory;
use qs_syntax::{Expr, Node, Start, Stmt};
use qs_types::{CType, Rule, is_scalar, is_void};
use qs_typing_findings::{Context, Position, Test, Walk, decayed, is_assignable, keeps};
use std::alloc::Global;

// ---- expressions in statements

/// The test of a condition of this type (C11 6.8.4.1p1, 6.8.5p2).
fn condition_test(t: Option<CType>) -> Option<Test>
    ensures { IsConditionTest t result }
{
    Some(keeps(Rule::TruthOperand, is_scalar(&decayed(t?))))
}

/// Notes a rule that a node may break.
pub fn judge_option(node: Node, t: Option<Test>, walk: &mut Walk)
    ensures { JudgesOne node t walk.old walk.new }
{
    match t {
        None => walk.judge(node, &[]),
        Some(t) => walk.judge(node, &[t]),
    }
}

fn walk_condition(
    alloc: Global,
    c: &Context,
    node: Node,
    e: &Expr,
    walk: &mut Walk,
) -> Result<(), NoMemory>
    ensures { OnOk result (WalksCondition c.now node e.now walk.old walk.new) }
{
    let t = walk.expression(alloc, c, Position::Used, e)?;
    judge_option(node, condition_test(t), walk);
    Ok(())
}

/// Walks over an expression, where there is one.
fn walk_option(
    alloc: Global,
    c: &Context,
    p: Position,
    e: &Option<Expr>,
    walk: &mut Walk,
) -> Result<Option<CType>, NoMemory>
    ensures typed { IfOk result (IsOptionType c.now e.now) }
    ensures walked { OnOk result (WalksOption c.now p e.now walk.old walk.new) }
{
    match e {
        None => Ok(None),
        Some(e) => walk.expression(alloc, c, p, e),
    }
}

fn returns(to: &CType, e: &Expr, t: Option<CType>) -> Option<Test>
    ensures { IsReturned to.now e.now t result }
{
    let t = t?;
    let fits = !is_void(to) && is_assignable(to, e, &decayed(t));
    Some(keeps(Rule::ReturnedType, fits))
}

/// The test of a `return` of an expression of type `t` (C11 6.8.6.4p1).
fn return_test(to: Option<&CType>, e: &Option<Expr>, t: Option<CType>) -> Option<Test>
    ensures { IsReturnTest to.entry e.now t result }
{
    let to = to?;
    match e {
        None => Some(keeps(Rule::ReturnedType, is_void(to))),
        Some(e) => returns(to, e, t),
    }
}

fn walk_return(
    alloc: Global,
    c: &Context,
    node: Node,
    e: &Option<Expr>,
    walk: &mut Walk,
) -> Result<(), NoMemory>
    ensures { OnOk result (WalksReturn c.now node e.now walk.old walk.new) }
{
    walk.open()?;
    let t = walk_option(alloc, c, Position::Used, e, walk)?;
    judge_option(node, return_test(c.result(), e, t), walk);
    Ok(())
}

fn walk_discarded(alloc: Global, c: &Context, e: &Expr, walk: &mut Walk) -> Result<(), NoMemory>
    ensures { OnOk result (WalksDiscarded c.now e.now walk.old walk.new) }
{
    walk.open()?;
    walk.expression(alloc, c, Position::Discarded, e)?;
    Ok(())
}

/// Walks over a `break` or `continue`, which stands where it may or doesn't (C11 6.8.6).
fn walk_jump(node: Node, may: bool, walk: &mut Walk) -> Result<(), NoMemory>
    ensures { OnOk result (JudgesJump node may walk.old walk.new) }
{
    walk.open()?;
    walk.judge(node, &[keeps(Rule::MisplacedJump, may)]);
    Ok(())
}

// ---- what a `for` begins with

/// Walks over what a `for` begins with, and tells whether it has a type.
fn walk_start(
    alloc: Global,
    c: &mut Context,
    start: &Start,
    walk: &mut Walk,
) -> Result<bool, NoMemory>
    ensures typed { IfOk result (IsStartTyped c.new start.now) }
    ensures context { OnOk result (KnowsStart start.now c.old c.new) }
    ensures walked { OnOk result (WalksStart c.old start.now walk.old walk.new) }
{
    match start {
        Start::Nothing => Ok(true),
        Start::Expression(e) => {
            let t = walk.expression(alloc, c, Position::Discarded, e)?;
            Ok(t.is_some())
        }
        Start::Declaration(d) => {
            walk_variables(alloc, false, c, &d.base, &d.variables, walk)?;
            Ok(true)
        }
    }
}

/// Whether an expression of type `t` has a type, where it is there.
fn is_typed(e: &Option<Expr>, t: &Option<CType>) -> bool
    ensures { result ≡ typed_by (option_tree e.now) (option_map type_tree t.now) }
{
    match e {
        None => true,
        Some(_) => t.is_some(),
    }
}

/// The test of a `for` whose condition has the type `t` and whose step the type `u`.
fn head_test(
    start_typed: bool,
    step: &Option<Expr>,
    u: &Option<CType>,
    t: Option<CType>,
) -> Option<Test>
    ensures { IsHeadTest start_typed step.now u.now t result }
{
    if start_typed && is_typed(step, u) {
        condition_test(t)
    } else {
        None
    }
}

/// Walks over the condition and the step of a `for`.
fn walk_head(
    alloc: Global,
    c: &Context,
    node: Node,
    typed: bool,
    condition: &Option<Expr>,
    step: &Option<Expr>,
    walk: &mut Walk,
) -> Result<(), NoMemory>
    ensures { OnOk result (WalksHead c.now node typed condition.now step.now walk.old walk.new) }
{
    let t = walk_option(alloc, c, Position::Used, condition, walk)?;
    let u = walk_option(alloc, c, Position::Discarded, step, walk)?;
    judge_option(node, head_test(typed, step, &u, t), walk);
    Ok(())
}

// ---- statements

/// Walks over a statement; a declaration is known behind it.
#[cycle(stmt)]
fn walk_statement(alloc: Global, c: &mut Context, s: &Stmt, walk: &mut Walk) -> Result<(), NoMemory>
    ensures context { OnOk result (KnowsStatement s.now c.old c.new) }
    ensures walked { OnOk result (WalksStatement c.old s.now walk.old walk.new) }
{
    match s {
        Stmt::Empty(_) => walk.open(),
        Stmt::Expression(_, e) => walk_discarded(alloc, c, e, walk),
        Stmt::Declaration(d) => walk_variables(alloc, false, c, &d.base, &d.variables, walk),
        Stmt::Block(items) => walk_block(alloc, c, items, walk),
        Stmt::Switch {
            node,
            operand,
            items,
        } => walk_switch(alloc, c, *node, items, operand, walk),
        Stmt::Case(node, e) => walk_case(alloc, c, *node, e, walk),
        Stmt::Default(node) => walk_default(c, *node, walk),
        Stmt::If {
            node,
            condition,
            then,
            otherwise,
        } => walk_if(alloc, c, *node, condition, then, otherwise, walk),
        Stmt::While {
            node,
            condition,
            body,
        } => walk_while(alloc, c, *node, body, condition, walk),
        Stmt::Do {
            node,
            body,
            condition,
        } => walk_do(alloc, c, *node, body, condition, walk),
        Stmt::For {
            node,
            start,
            condition,
            step,
            body,
        } => walk_for(alloc, c, *node, start, condition, step, body, walk),
        Stmt::Break(node) => walk_jump(*node, c.in_loop() || c.in_switch(), walk),
        Stmt::Continue(node) => walk_jump(*node, c.in_loop(), walk),
        Stmt::Return(node, e) => walk_return(alloc, c, *node, e, walk),
    }
}

/// Walks over an `if` (C11 6.8.4.1).
#[cycle(stmt)]
fn walk_if(
    alloc: Global,
    c: &mut Context,
    node: Node,
    e: &Expr,
    s: &Stmt,
    otherwise: &Option<Box<Stmt>>,
    walk: &mut Walk,
) -> Result<(), NoMemory>
    ensures context { OnOk result (context_tree c.new ≡ context_tree c.old) }
    ensures walked { OnOk result (WalksIf c.old node e.now s.now otherwise.now walk.old walk.new) }
{
    walk.open()?;
    walk_condition(alloc, c, node, e, walk)?;
    walk_part(alloc, c, s, walk)?;
    walk_else(alloc, c, otherwise, walk)
}

/// Walks over a `while` (C11 6.8.5.1).
#[cycle(stmt)]
fn walk_while(
    alloc: Global,
    c: &mut Context,
    node: Node,
    body: &Stmt,
    condition: &Expr,
    walk: &mut Walk,
) -> Result<(), NoMemory>
    ensures context { OnOk result (context_tree c.new ≡ context_tree c.old) }
    ensures walked { OnOk result (WalksWhile c.old node condition.now body.now walk.old walk.new) }
{
    walk.open()?;
    walk_condition(alloc, c, node, condition, walk)?;
    walk_body(alloc, c, body, walk)
}

/// Walks over a `do` (C11 6.8.5.2).
#[cycle(stmt)]
fn walk_do(
    alloc: Global,
    c: &mut Context,
    node: Node,
    body: &Stmt,
    condition: &Expr,
    walk: &mut Walk,
) -> Result<(), NoMemory>
    ensures context { OnOk result (context_tree c.new ≡ context_tree c.old) }
    ensures walked { OnOk result (WalksDo c.old node body.now condition.now walk.old walk.new) }
{
    walk.open()?;
    walk_body(alloc, c, body, walk)?;
    walk_condition(alloc, c, node, condition, walk)
}

/// Walks over a `for`, which is a scope (C11 6.8.5.3).
#[cycle(stmt)]
fn walk_for(
    alloc: Global,
    c: &mut Context,
    node: Node,
    start: &Start,
    e: &Option<Expr>,
    step: &Option<Expr>,
    s: &Stmt,
    walk: &mut Walk,
) -> Result<(), NoMemory>
    ensures context { OnOk result (context_tree c.new ≡ context_tree c.old) }
    ensures walked { WalksFor c.old node start.now e.now step.now s.now walk.old walk.new result }
{
    walk.open()?;
    let around = c.enter_scope(alloc);
    let start_typed = walk_start(alloc, c, start, walk)?;
    walk_head(alloc, c, node, start_typed, e, step, walk)?;
    walk_body(alloc, c, s, walk)?;
    c.leave_scope(around);
    Ok(())
}

/// Walks over a statement that is a part of another, which is a scope (C11 6.8.4p3).
#[cycle(stmt)]
fn walk_part(alloc: Global, c: &mut Context, s: &Stmt, walk: &mut Walk) -> Result<(), NoMemory>
    ensures context { OnOk result (context_tree c.new ≡ context_tree c.old) }
    ensures walked { OnOk result (WalksPart c.old s.now walk.old walk.new) }
{
    let around = c.enter_scope(alloc);
    walk_statement(alloc, c, s, walk)?;
    c.leave_scope(around);
    Ok(())
}

/// Walks over the body of a loop (C11 6.8.5p5).
#[cycle(stmt)]
fn walk_body(alloc: Global, c: &mut Context, s: &Stmt, walk: &mut Walk) -> Result<(), NoMemory>
    ensures context { OnOk result (context_tree c.new ≡ context_tree c.old) }
    ensures walked { OnOk result (WalksBody c.old s.now walk.old walk.new) }
{
    let around = c.enter_scope(alloc);
    c.enter_loop();
    walk_statement(alloc, c, s, walk)?;
    c.leave_scope(around);
    Ok(())
}

#[cycle(stmt)]
fn walk_else(
    alloc: Global,
    c: &mut Context,
    s: &Option<Box<Stmt>>,
    walk: &mut Walk,
) -> Result<(), NoMemory>
    ensures context { OnOk result (context_tree c.new ≡ context_tree c.old) }
    ensures walked { OnOk result (WalksElse c.old s.now walk.old walk.new) }
{
    match s {
        None => Ok(()),
        Some(s) => walk_part(alloc, c, s, walk),
    }
}

#[cycle(stmt)]
fn walk_block(
    alloc: Global,
    c: &mut Context,
    items: &[Stmt],
    walk: &mut Walk,
) -> Result<(), NoMemory>
    ensures context { OnOk result (context_tree c.new ≡ context_tree c.old) }
    ensures walked { OnOk result (WalksBlock c.old items.now walk.old walk.new) }
{
    let around = c.enter_scope(alloc);
    walk_statements(alloc, c, items, walk)?;
    c.leave_scope(around);
    Ok(())
}

/// Walks over a switch, whose block is a scope (C11 6.8.4p3, 6.8.4.2).
#[cycle(stmt)]
fn walk_switch(
    alloc: Global,
    c: &mut Context,
    node: Node,
    items: &[Stmt],
    operand: &Expr,
    walk: &mut Walk,
) -> Result<(), NoMemory>
    ensures context { OnOk result (context_tree c.new ≡ context_tree c.old) }
    ensures walked { OnOk result (WalksSwitch c.old node operand.now items.now walk.old walk.new) }
{
    walk.open()?;
    let t = walk_operand(alloc, c, node, operand, walk)?;
    let around = c.enter_scope(alloc);
    c.enter_switch(alloc, t);
    walk_statements(alloc, c, items, walk)?;
    c.leave_scope(around);
    Ok(())
}

/// Walks over the items of a block.
#[cycle(stmt)]
pub fn walk_statements(
    alloc: Global,
    c: &mut Context,
    items: &[Stmt],
    walk: &mut Walk,
) -> Result<(), NoMemory>
    ensures context { OnOk result (KnowsStatements items.now c.old c.new) }
    ensures walked { OnOk result (WalksStatements c.old items.now walk.old walk.new) }
{
    for s in items {
        walk_statement(alloc, c, s, walk)?;
    }
    Ok(())
}
