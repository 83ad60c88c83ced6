// The terms and conditions of core expressions, as those of assertions.
ghost use Rattle.std.specs.Prelude.{◌≡◌, [], ◌∷◌, IfOk, OnOk};
ghost use Rattle.qs_assert.specs.Listing.{term_nodes};
ghost use Rattle.qs_core.specs.TreeOf.{core_expr};
ghost use Rattle.qs_core.specs.TermTreeOf.{core_term, core_condition};
ghost use Rattle.qs_triples.specs.Valuations as valuations;
ghost use Rattle.qs_triples.specs.ExpressionTerms as spec;
ghost use Rattle.qs_triples.specs.ExpressionTerms.{term_tree};
ghost use Rattle.qs_triples.specs.TermLists.{Puts, operation_head, wrapped_head};

use qs_assert::{Cond, NumberType, Term, TermNode, Var, VarKind};
use qs_base::NoMemory;
use qs_core::{
    CoreCondition, CoreExpr, CoreTerm, TermComparison, TermOperation, condition_of, term_of,
};
use qs_memory::{Scalar, Signedness};
use std::alloc::Global;

/// The integer type that a scalar is; that of a pointer is never asked.
pub fn number_type(s: Scalar) -> NumberType
    ensures { result ≡ valuations.number_type s }
{
    match s {
        Scalar::Char => NumberType::Char,
        Scalar::Int => NumberType::Int,
        Scalar::Unsigned => NumberType::Unsigned,
        Scalar::Pointer => NumberType::Int,
    }
}

/// A variable under the type of its values.
pub fn var(kind: VarKind, s: Scalar) -> Var
    ensures { result ≡ spec.var kind s }
{
    Var {
        kind,
        number: number_type(s),
    }
}

fn operation_head(op: TermOperation) -> TermNode
    ensures { result ≡ operation_head op }
{
    match op {
        TermOperation::Add => TermNode::Add(2),
        TermOperation::Subtract => TermNode::Sub,
        TermOperation::Multiply => TermNode::Mul(2),
    }
}

fn wrapped_head(s: Signedness) -> TermNode
    ensures { result ≡ wrapped_head s }
{
    match s {
        Signedness::Signed => TermNode::WrapSigned,
        Signedness::Unsigned => TermNode::WrapUnsigned,
    }
}

// How many nodes a term has. The number stands still at its end.
fn count_nodes(t: &CoreTerm) -> usize {
    match t {
        CoreTerm::Number(_) => 1,
        CoreTerm::Variable(_, _) => 1,
        CoreTerm::Temporary(_, _) => 1,
        CoreTerm::Combined(_, p) => count_nodes(&p.left)
            .saturating_add(count_nodes(&p.right))
            .saturating_add(1),
        CoreTerm::Divide(t, _) => count_nodes(t).saturating_add(1),
        CoreTerm::Remainder(t, _) => count_nodes(t).saturating_mul(2).saturating_add(4),
        CoreTerm::Wrapped(_, t) => count_nodes(t).saturating_add(1),
    }
}

fn put(nodes: &mut Vec<TermNode>, node: TermNode) -> Result<(), NoMemory>
    ensures { OnOk result (Puts (node ∷ []) nodes.old nodes.new) }
{
    nodes.push(node)?;
    Ok(())
}

// Puts the nodes of a term at the end of a list.
fn put_term(nodes: &mut Vec<TermNode>, t: &CoreTerm) -> Result<(), NoMemory>
    ensures { OnOk result (Puts (term_nodes (term_tree (core_term t.now))) nodes.old nodes.new) }
{
    match t {
        CoreTerm::Number(k) => put(nodes, TermNode::Number(*k)),
        CoreTerm::Variable(s, x) => put(nodes, TermNode::Variable(var(VarKind::Plain(*x), *s))),
        CoreTerm::Temporary(s, k) => put(
            nodes,
            TermNode::Variable(var(VarKind::Temporary(*k), *s)),
        ),
        CoreTerm::Combined(op, p) => {
            put(nodes, operation_head(*op))?;
            put_term(nodes, &p.left)?;
            put_term(nodes, &p.right)
        }
        CoreTerm::Divide(t, k) => {
            put(nodes, TermNode::Div(u64::from(*k)))?;
            put_term(nodes, t)
        }
        CoreTerm::Remainder(t, k) => {
            put(nodes, TermNode::Sub)?;
            put_term(nodes, t)?;
            put(nodes, TermNode::Mul(2))?;
            put(nodes, TermNode::Number(i64::from(*k)))?;
            put(nodes, TermNode::Div(u64::from(*k)))?;
            put_term(nodes, t)
        }
        CoreTerm::Wrapped(s, t) => {
            put(nodes, wrapped_head(*s))?;
            put_term(nodes, t)
        }
    }
}

/// The term of a core term. One that no memory holds is told before anything of it is made.
fn term(alloc: Global, t: &CoreTerm) -> Result<Term, NoMemory>
    ensures { IfOk result (λ r. r ≡ term_tree (core_term t.now)) }
{
    let mut nodes = Vec::new(alloc);
    nodes.reserve(count_nodes(t))?;
    put_term(&mut nodes, t)?;
    Ok(Term::from_nodes(nodes))
}

fn comparison(alloc: Global, op: TermComparison, t: &Term, u: &Term) -> Result<Cond, NoMemory>
    ensures { IfOk result (λ c. c ≡ spec.comparison_condition op t.now u.now) }
{
    match op {
        TermComparison::Less => Cond::lt(alloc, t, u),
        TermComparison::LessOrEqual => Cond::le(alloc, t, u),
        TermComparison::Equal => Cond::eq(alloc, t, u),
        TermComparison::NotEqual => Cond::ne(alloc, t, u),
    }
}

fn condition(alloc: Global, c: &CoreCondition) -> Result<Cond, NoMemory>
    ensures { IfOk result (λ r. r ≡ spec.condition_tree (core_condition c.now)) }
{
    match c {
        CoreCondition::Compared(op, p) => {
            let left = term(alloc, &p.left)?;
            let right = term(alloc, &p.right)?;
            comparison(alloc, *op, &left, &right)
        }
        CoreCondition::Not(c) => {
            let part = condition(alloc, c)?;
            Cond::not(alloc, &part)
        }
        CoreCondition::And(p) => {
            let left = condition(alloc, &p.left)?;
            let right = condition(alloc, &p.right)?;
            Cond::and(alloc, &[left, right])
        }
        CoreCondition::Or(p) => {
            let left = condition(alloc, &p.left)?;
            let right = condition(alloc, &p.right)?;
            Cond::or(alloc, &[left, right])
        }
    }
}

/// The term of an expression, if it has one.
pub fn expression_term(alloc: Global, e: &CoreExpr) -> Result<Option<Term>, NoMemory>
    ensures { IfOk result (λ r. r ≡ spec.expression_term (core_expr e.now)) }
{
    match term_of(alloc, e)? {
        None => Ok(None),
        Some(t) => Ok(Some(term(alloc, &t)?)),
    }
}

/// The condition of an expression, if it has one.
pub fn expression_condition(alloc: Global, e: &CoreExpr) -> Result<Option<Cond>, NoMemory>
    ensures { IfOk result (λ r. r ≡ spec.expression_condition (core_expr e.now)) }
{
    match condition_of(alloc, e)? {
        None => Ok(None),
        Some(c) => Ok(Some(condition(alloc, &c)?)),
    }
}
