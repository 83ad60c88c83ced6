// The walk over expressions (C11 6.5).
ghost use Rattle.std.specs.Prelude.{◌≡◌, ◌+◌, [], IfOk, OnOk, length, option_to_list};
ghost use Rattle.std.specs.Prelude.{if◌then◌else◌};
ghost use Rattle.qs_syntax.specs.TreeOf.{expr_tree, shape_tree};
ghost use Rattle.qs_types.specs.ExpressionFaults.{used};
ghost use Rattle.qs_types.specs.Expressions.{judged};
ghost use Rattle.qs_types.specs.Placed.{local_node, named_local};
ghost use Rattle.qs_types.specs.Types.{array, char, int, unsigned};
ghost use Rattle.qs_typing_findings.specs.ContextOf.{context_tree};
ghost use Rattle.qs_typing_findings.specs.EntityOf.{entity_at};
ghost use Rattle.qs_types.specs.Referents.{given_referent, referent, shape_referent};
ghost use Rattle.qs_typing_findings.specs.ExprWalks.{AddsFindings, AddsType, HasType, HaveTypes};
ghost use Rattle.qs_typing_findings.specs.ExprWalks.{IsJudgedAssign, IsJudgedBinary, IsJudgedComma};
ghost use Rattle.qs_typing_findings.specs.ExprWalks.{IsJudgedConditional, IsJudgedMember, IsJudgedShape};
ghost use Rattle.qs_typing_findings.specs.ExprWalks.{IsJudgedSubscript, IsJudgedUnary, NotesNode};
ghost use Rattle.qs_typing_findings.specs.ExprWalks.{NotesOperand, Settles, Walks, WalksAll, WalksAssigned};
ghost use Rattle.qs_typing_findings.specs.ExprWalks.{WalksComma, WalksObject, WalksPart, WalksParts};
ghost use Rattle.qs_typing_findings.specs.ExprWalks.{WalksThree, WalksTwo, WalksUnary};
ghost use Rattle.qs_typing_findings.specs.JudgedOf.{judged_tree};
ghost use Rattle.qs_typing_findings.specs.Judging.{option_judged};
ghost use Rattle.qs_typing_findings.specs.PartsOf.{option_type, type_by};

use crate::assignments::judge_assign;
use crate::context::Context;
use crate::entity::Entity;
use crate::found::Found;
use crate::judged::{Judged, violates, with_tests};
use crate::members::judge_member;
use crate::names::{judge_call, judge_cast, judge_name, judge_object, judge_size};
use crate::operators::{
    judge_binary, judge_comma, judge_conditional, judge_step, judge_subscript, judge_unary,
};
use crate::positions::{
    Position, assigned_position, is_misplaced, object_position, operand_position, right_position,
};
use crate::types::copied;
use qs_base::{Name, NoMemory};
use qs_syntax::{Expr, Shape};
use qs_syntax_vocabulary::{Access, AssignmentOperator, BinaryOperator, Text, UnaryOperator};
use qs_types::{CType, Referent, Rule};
use std::alloc::Global;

// ---- what names stand for

/// Which of the functions that are given has this name.
fn given(x: &Name) -> Referent
    ensures { result ≡ given_referent x.now }
{
    if x.bytes() == b"putchar".as_slice() {
        Referent::PutChar
    } else {
        Referent::GetChar
    }
}

fn referent(x: &Name, entity: Option<&Entity>) -> Option<Referent>
    ensures { result ≡ referent x.now (entity_at entity.entry) }
{
    match entity {
        None => None,
        Some(Entity::LocalVariable(node, _)) => Some(Referent::Local(*node)),
        Some(Entity::FileVariable(node, _)) => Some(Referent::File(*node)),
        Some(Entity::Function { node, .. }) => Some(Referent::Function(*node)),
        Some(Entity::Given(_)) => Some(given(x)),
    }
}

fn shape_referent(c: &Context, shape: &Shape) -> Option<Referent>
    ensures { result ≡ shape_referent (context_tree c.now) (shape_tree shape.now) }
{
    match shape {
        Shape::Constant(_, _) => None,
        Shape::Text(_) => None,
        Shape::Name(x) => referent(x, c.find(x)),
        Shape::Unary(_, _) => None,
        Shape::Step(_, _) => None,
        Shape::Cast(_, _) => None,
        Shape::SizeofType(_) => None,
        Shape::SizeofExpr(_) => None,
        Shape::Binary { .. } => None,
        Shape::Assign { .. } => None,
        Shape::Conditional { .. } => None,
        Shape::Comma(_, _) => None,
        Shape::Subscript(_, _) => None,
        Shape::Member { .. } => None,
        Shape::Call(f, _) => referent(f, c.find(f)),
    }
}

fn local_node(entity: Option<&Entity>) -> Option<u32>
    ensures { option_to_list result ≡ local_node (entity_at entity.entry) }
{
    match entity {
        None => None,
        Some(Entity::LocalVariable(node, _)) => Some(*node),
        Some(Entity::FileVariable(_, _)) => None,
        Some(Entity::Function { .. }) => None,
        Some(Entity::Given(_)) => None,
    }
}

fn named_local(c: &Context, a: &Expr) -> Option<u32>
    ensures { option_to_list result ≡ named_local (context_tree c.now) (expr_tree a.now) }
{
    match &a.shape {
        Shape::Constant(_, _) => None,
        Shape::Text(_) => None,
        Shape::Name(x) => local_node(c.find(x)),
        Shape::Unary(_, _) => None,
        Shape::Step(_, _) => None,
        Shape::Cast(_, _) => None,
        Shape::SizeofType(_) => None,
        Shape::SizeofExpr(_) => None,
        Shape::Binary { .. } => None,
        Shape::Assign { .. } => None,
        Shape::Conditional { .. } => None,
        Shape::Comma(_, _) => None,
        Shape::Subscript(_, _) => None,
        Shape::Member { .. } => None,
        Shape::Call(_, _) => None,
    }
}

/// Notes the declaration of a name that is the operand of `&`.
#[tactic(auto, using(crate::proofs::Walks::none_addressed))]
fn note_operand(
    c: &Context,
    operator: UnaryOperator,
    a: &Expr,
    found: &mut Found,
) -> Result<(), NoMemory>
    ensures { OnOk result (NotesOperand c.now operator a.now found.old found.new) }
{
    match operator {
        UnaryOperator::Address => note_node(named_local(c, a), found),
        UnaryOperator::Indirect => Ok(()),
        UnaryOperator::Plus => Ok(()),
        UnaryOperator::Minus => Ok(()),
        UnaryOperator::Complement => Ok(()),
        UnaryOperator::Not => Ok(()),
    }
}

#[tactic(auto, using(crate::proofs::Walks::none_addressed))]
fn note_node(node: Option<u32>, found: &mut Found) -> Result<(), NoMemory>
    ensures { OnOk result (NotesNode node found.old found.new) }
{
    match node {
        None => Ok(()),
        Some(node) => found.note_addressed(node),
    }
}

// ---- literals (6.4.4, 6.4.5)

fn constant_judged(alloc: Global, is_unsigned: bool) -> Result<Judged, NoMemory>
    ensures { IfOk result (λ j. judged_tree j ≡ judged [] (if is_unsigned then unsigned else int)) }
{
    let of = if is_unsigned {
        CType::Unsigned
    } else {
        CType::Int
    };
    with_tests(alloc, &[], of)
}

fn text_judged(alloc: Global, text: &Text) -> Result<Judged, NoMemory>
    ensures { IfOk result (λ j. judged_tree j ≡ judged [] (array char (length text.now + 1))) }
{
    let len = text.bytes().len();
    if len >= u32::MAX as usize {
        return Err(NoMemory);
    }
    let of = CType::Array(Box::new(alloc, CType::Char)?, len as u32 + 1);
    with_tests(alloc, &[], of)
}

// ---- the walk

/// What is judged of an expression, where each of its parts has a type.
type Walked = Result<Option<Judged>, NoMemory>;

/// Notes the rules that a node breaks, and gives its type.
fn settle(
    node: u32,
    p: Position,
    shape: &Shape,
    judged: Option<Judged>,
    found: &mut Found,
) -> Option<CType>
    ensures typed { option_type result ≡ type_by (option_judged judged) }
    ensures found { Settles node p shape.now judged found.old found.new }
{
    let Judged { tests, of } = judged?;
    if found.judge(node, &tests) {
        return None;
    }
    let broken = is_misplaced(p, shape, &of);
    found.judge(node, &[violates(Rule::MisplacedValue, broken)]);
    Some(of)
}

#[cycle(walk)]
fn walk(
    alloc: Global,
    c: &Context,
    e: &Expr,
    p: Position,
    found: &mut Found,
) -> Result<Option<CType>, NoMemory>
    ensures typed { IfOk result (HasType c.now e.now) }
    ensures found { OnOk result (Walks c.now p e.now found.old found.new) }
{
    let at = found.open(shape_referent(c, &e.shape))?;
    let judged = walk_parts(alloc, c, &e.shape, p, found)?;
    let t = settle(e.node.id, p, &e.shape, judged, found);
    let kept = copied(alloc, &t)?;
    found.fill(at, kept);
    Ok(t)
}

/// Walks over an operand whose value is used.
#[cycle(walk)]
fn walk_used(
    alloc: Global,
    c: &Context,
    e: &Expr,
    found: &mut Found,
) -> Result<Option<CType>, NoMemory>
    ensures typed { IfOk result (HasType c.now e.now) }
    ensures found { OnOk result (WalksPart c.now used e.now found.old found.new) }
{
    walk(alloc, c, e, Position::Used, found)
}

/// Walks over the parts of an expression, and judges it by their types.
#[cycle(walk)]
fn walk_parts(alloc: Global, c: &Context, shape: &Shape, p: Position, found: &mut Found) -> Walked
    ensures judged { IfOk result (IsJudgedShape c.now shape.now) }
    ensures found { OnOk result (WalksParts c.now p shape.now found.old found.new) }
{
    match shape {
        Shape::Constant(_, is_unsigned) => Ok(Some(constant_judged(alloc, *is_unsigned)?)),
        Shape::Text(text) => Ok(Some(text_judged(alloc, text)?)),
        Shape::Name(x) => judge_name(alloc, c.find(x)),
        Shape::Unary(operator, a) => walk_unary(alloc, c, *operator, a, found),
        Shape::Step(_, a) => judge_step(alloc, c.structs(), a, walk_used(alloc, c, a, found)?),
        Shape::Cast(name, a) => judge_cast(alloc, c, name, a, walk_used(alloc, c, a, found)?),
        Shape::SizeofType(name) => Ok(Some(judge_size(alloc, c, name)?)),
        Shape::SizeofExpr(a) => judge_object(alloc, c, walk(alloc, c, a, Position::Whole, found)?),
        Shape::Binary {
            operator,
            left,
            right,
        } => walk_binary(alloc, c, *operator, left, right, found),
        Shape::Assign {
            operator,
            left,
            right,
        } => walk_assign(alloc, c, *operator, left, right, found),
        Shape::Conditional {
            condition,
            then,
            otherwise,
        } => walk_conditional(alloc, c, condition, then, otherwise, found),
        Shape::Comma(a, b) => walk_comma(alloc, c, a, b, p, found),
        Shape::Subscript(a, b) => walk_subscript(alloc, c, a, b, found),
        Shape::Member {
            access,
            object,
            name,
        } => walk_member(alloc, c, *access, object, name, found),
        Shape::Call(f, es) => judge_call(alloc, c.find(f), es, walk_all(alloc, c, es, found)?),
    }
}

/// A unary operator (C11 6.5.3).
#[cycle(walk)]
fn walk_unary(
    alloc: Global,
    c: &Context,
    operator: UnaryOperator,
    a: &Expr,
    found: &mut Found,
) -> Walked
    ensures judged { IfOk result (IsJudgedUnary c.now operator a.now) }
    ensures found { OnOk result (WalksUnary c.now operator a.now found.old found.new) }
{
    note_operand(c, operator, a, found)?;
    let t = walk(alloc, c, a, operand_position(operator), found)?;
    judge_unary(alloc, c.structs(), operator, a, t)
}

/// An operator between two operands (C11 6.5.5 to 6.5.14).
#[cycle(walk)]
fn walk_binary(
    alloc: Global,
    c: &Context,
    operator: BinaryOperator,
    a: &Expr,
    b: &Expr,
    found: &mut Found,
) -> Walked
    ensures judged { IfOk result (IsJudgedBinary c.now operator a.now b.now) }
    ensures found { OnOk result (WalksTwo c.now used a.now used b.now found.old found.new) }
{
    let t = walk_used(alloc, c, a, found)?;
    let u = walk_used(alloc, c, b, found)?;
    judge_binary(alloc, c.structs(), operator, a, t, b, u)
}

/// An assignment (C11 6.5.16).
#[cycle(walk)]
fn walk_assign(
    alloc: Global,
    c: &Context,
    operator: AssignmentOperator,
    a: &Expr,
    b: &Expr,
    found: &mut Found,
) -> Walked
    ensures judged { IfOk result (IsJudgedAssign c.now operator a.now b.now) }
    ensures found { OnOk result (WalksAssigned c.now operator a.now b.now found.old found.new) }
{
    let p = assigned_position(operator);
    let t = walk(alloc, c, a, p, found)?;
    let u = walk(alloc, c, b, p, found)?;
    judge_assign(alloc, c.structs(), operator, a, t, b, u)
}

/// `d ? a : b` (C11 6.5.15)
#[cycle(walk)]
fn walk_conditional(
    alloc: Global,
    c: &Context,
    d: &Expr,
    a: &Expr,
    b: &Expr,
    found: &mut Found,
) -> Walked
    ensures judged { IfOk result (IsJudgedConditional c.now d.now a.now b.now) }
    ensures found { OnOk result (WalksThree c.now d.now a.now b.now found.old found.new) }
{
    let s = walk_used(alloc, c, d, found)?;
    let t = walk_used(alloc, c, a, found)?;
    let u = walk_used(alloc, c, b, found)?;
    judge_conditional(alloc, s, a, t, b, u)
}

/// `a, b` (C11 6.5.17), which stands at `p`.
#[cycle(walk)]
fn walk_comma(
    alloc: Global,
    c: &Context,
    a: &Expr,
    b: &Expr,
    p: Position,
    found: &mut Found,
) -> Walked
    ensures judged { IfOk result (IsJudgedComma c.now a.now b.now) }
    ensures found { OnOk result (WalksComma c.now p a.now b.now found.old found.new) }
{
    let t = walk(alloc, c, a, Position::Discarded, found)?;
    let u = walk(alloc, c, b, right_position(p), found)?;
    judge_comma(alloc, t, u)
}

/// `a[b]` (C11 6.5.2.1)
#[cycle(walk)]
fn walk_subscript(alloc: Global, c: &Context, a: &Expr, b: &Expr, found: &mut Found) -> Walked
    ensures judged { IfOk result (IsJudgedSubscript c.now a.now b.now) }
    ensures found { OnOk result (WalksTwo c.now used a.now used b.now found.old found.new) }
{
    let t = walk_used(alloc, c, a, found)?;
    let u = walk_used(alloc, c, b, found)?;
    judge_subscript(alloc, c.structs(), t, u)
}

/// `a.m` or `a->m` (C11 6.5.2.3)
#[cycle(walk)]
fn walk_member(
    alloc: Global,
    c: &Context,
    access: Access,
    a: &Expr,
    name: &Name,
    found: &mut Found,
) -> Walked
    ensures judged { IfOk result (IsJudgedMember c.now access a.now name.now) }
    ensures found { OnOk result (WalksObject c.now access a.now found.old found.new) }
{
    let t = walk(alloc, c, a, object_position(access), found)?;
    judge_member(alloc, c.structs(), access, a, t, name)
}

/// The types of arguments, if each has one.
#[cycle(walk)]
fn walk_all(
    alloc: Global,
    c: &Context,
    es: &[Expr],
    found: &mut Found,
) -> Result<Option<Vec<CType>>, NoMemory>
    ensures typed { IfOk result (HaveTypes c.now es.now) }
    ensures found { OnOk result (WalksAll c.now es.now found.old found.new) }
{
    let mut all = Some(Vec::new(alloc));
    for e in es {
        let t = walk(alloc, c, e, Position::Used, found)?;
        all = with_one_more(all, t)?;
    }
    Ok(all)
}

fn with_one_more(all: Option<Vec<CType>>, t: Option<CType>) -> Result<Option<Vec<CType>>, NoMemory>
    ensures { IfOk result (AddsType all t) }
{
    match all {
        None => Ok(None),
        Some(mut ts) => match t {
            None => Ok(None),
            Some(t) => {
                ts.push(t)?;
                Ok(Some(ts))
            }
        },
    }
}

/// The type of an expression, if it has one. What is found in it is added to what was found before:
/// the types of its nodes, what its names stand for, the declarations whose names are operands of
/// `&`, and the rules that its nodes break (C11 6.5).
#[tactic(auto, using(crate::proofs::Walks::expr_walked))]
pub fn walk_expression(
    alloc: Global,
    c: &Context,
    e: &Expr,
    p: Position,
    found: &mut Found,
) -> Result<Option<CType>, NoMemory>
    ensures typed { IfOk result (HasType c.now e.now) }
    ensures found { OnOk result (AddsFindings c.now p e.now found.old found.new) }
{
    walk(alloc, c, e, p, found)
}
