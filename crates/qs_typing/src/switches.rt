// The operand of a switch, and its labels (C11 6.8.4.2).
ghost use Rattle.std.specs.Prelude.{◌≡◌, IfOk, OnOk, option_map};
ghost use Rattle.qs_syntax.specs.TreeOf.{expr_tree};
ghost use Rattle.qs_types.specs.Constants.{constant_of};
ghost use Rattle.qs_types.specs.Contexts.{with_default};
ghost use Rattle.qs_types.specs.Expressions.{type_of};
ghost use Rattle.qs_types.specs.StatementRules.{operand_type};
ghost use Rattle.qs_types.specs.TypeOf.{type_tree};
ghost use Rattle.qs_typing_findings.specs.ContextOf.{context_tree};
ghost use Rattle.qs_typing.specs.SwitchWalks.{IsOperandType, IsSwitchTest, JudgesCase, KnowsLabel};
ghost use Rattle.qs_typing.specs.SwitchWalks.{WalksCase, WalksDefault, WalksOperand};

use crate::lengths::constant;
use crate::statements::judge_option;
use qs_base::NoMemory;
use qs_syntax::{Expr, Node};
use qs_types::{CType, Rule, is_integer, promoted};
use qs_typing_findings::{Context, Position, Test, Walk, keeps, violates};
use std::alloc::Global;

// ---- the operand

/// The test of an operand of this type (C11 6.8.4.2p1).
fn switch_test(t: &Option<CType>) -> Option<Test>
    ensures { IsSwitchTest t.now result }
{
    Some(keeps(Rule::SwitchType, is_integer(t.as_ref()?)))
}

/// The promoted type of an operand of this type (C11 6.8.4.2p5), where it is an integer.
fn operand_type(t: &Option<CType>) -> Option<CType>
    ensures { option_map type_tree result ≡ operand_type (option_map type_tree t.now) }
{
    let t = t.as_ref()?;
    if is_integer(t) {
        Some(promoted(t))
    } else {
        None
    }
}

/// Walks over the operand of a switch, and gives its promoted type, where it is an integer.
pub fn walk_operand(
    alloc: Global,
    c: &Context,
    node: Node,
    e: &Expr,
    walk: &mut Walk,
) -> Result<Option<CType>, NoMemory>
    ensures typed { IfOk result (IsOperandType c.now e.now) }
    ensures walked { OnOk result (WalksOperand c.now node e.now walk.old walk.new) }
{
    let t = walk.expression(alloc, c, Position::Used, e)?;
    judge_option(node, switch_test(&t), walk);
    Ok(operand_type(&t))
}

// ---- labels

fn case_constant(c: &Context, e: &Expr, t: &Option<CType>) -> Option<u32>
    requires { option_map type_tree t.now ≡ type_of (context_tree c.now) (expr_tree e.now) }
    ensures { result ≡ constant_of (context_tree c.now) (expr_tree e.now) }
{
    constant(c, e, t.as_ref()?)
}

fn judge_case(node: Node, t: &Option<CType>, constant: Option<u32>, is_met: bool, walk: &mut Walk)
    ensures { JudgesCase node t.now constant is_met walk.old walk.new }
{
    let twice = violates(Rule::LabelTwice, is_met);
    match t {
        None => walk.judge(node, &[twice]),
        Some(_) => walk.judge(node, &[keeps(Rule::SwitchType, constant.is_some()), twice]),
    }
}

/// Walks over a `case`, which is known behind it (C11 6.8.4.2p3).
pub fn walk_case(
    alloc: Global,
    c: &mut Context,
    node: Node,
    e: &Expr,
    walk: &mut Walk,
) -> Result<(), NoMemory>
    ensures context { OnOk result (KnowsLabel e.now c.old c.new) }
    ensures walked { OnOk result (WalksCase c.old node e.now walk.old walk.new) }
{
    walk.open()?;
    let t = walk.expression(alloc, c, Position::Used, e)?;
    let constant = case_constant(c, e, &t);
    let value = c.label_value(constant);
    judge_case(node, &t, constant, c.is_value_met(value), walk);
    c.add_case(value)
}

/// Walks over a `default`, which is known behind it (C11 6.8.4.2p3).
pub fn walk_default(c: &mut Context, node: Node, walk: &mut Walk) -> Result<(), NoMemory>
    ensures context { OnOk result (context_tree c.new ≡ with_default (context_tree c.old)) }
    ensures walked { OnOk result (WalksDefault c.old node walk.old walk.new) }
{
    walk.open()?;
    walk.judge(node, &[violates(Rule::LabelTwice, c.has_default())]);
    c.add_default();
    Ok(())
}
