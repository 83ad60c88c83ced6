// The operands and addresses that the code of a plan comes to.
ghost use Rattle.std.specs.Prelude.{◌≡◌, IfOk, Some};
ghost use Rattle.qs_lower_expressions.specs.Expressions as spec;
ghost use Rattle.qs_lower_expressions.specs.Plans.{expr_code, with_offset_at, element_index, started_code};

use crate::plans::{ExprPlan, PlanPair};
use crate::scratch::started_own;
use qs_base::{NoMemory, sum};
use qs_memory::Signedness;
use qs_tac::{Address, Index, Operand};

/// The operand, where its value is put into this temporary if it needs an instruction.
pub fn operand_of(e: &ExprPlan, t: u32) -> Operand
    ensures { result ≡ spec.operand_of (expr_code e.now) t }
{
    match e.simple() {
        None => Operand::Temporary(t),
        Some(o) => o,
    }
}

/// The pointer where the address begins.
#[cycle(base)]
pub fn base(e: &ExprPlan, t: u32) -> Operand
    ensures { result ≡ (expr_code e.now).base t }
{
    match e {
        ExprPlan::Offset(is_computed, _, p) => started_base(p, *is_computed, t),
        ExprPlan::IndexOffset(_, p) => base(p, t),
        ExprPlan::Element(is_computed, _, _, p) => started_base(&p.left, *is_computed, t),
        ExprPlan::Simple(_) => operand_of(e, t),
        ExprPlan::Load(_, _) => operand_of(e, t),
        ExprPlan::Unary(_, _) => operand_of(e, t),
        ExprPlan::Convert(_, _) => operand_of(e, t),
        ExprPlan::Binary(_, _) => operand_of(e, t),
        ExprPlan::Both(_) => operand_of(e, t),
        ExprPlan::Either(_) => operand_of(e, t),
        ExprPlan::Choice(_) => operand_of(e, t),
    }
}

#[cycle(base)]
fn started_base(p: &ExprPlan, is_computed: bool, t: u32) -> Operand
    ensures { result ≡ (started_code is_computed p.now).base t }
{
    if is_computed {
        operand_of(p, t)
    } else {
        base(p, t)
    }
}

// The element that the right operand counts.
fn element(
    p: &PlanPair,
    is_computed: bool,
    signedness: Signedness,
    size: u32,
    t: u32,
) -> Result<Index, NoMemory>
    ensures { IfOk result (λ i. Some i ≡ element_index is_computed signedness size p.now t) }
{
    let count = operand_of(&p.right, sum(t, started_own(&p.left, is_computed)?)?);
    Ok(Index {
        count,
        signedness,
        element: size,
        offset: None,
    })
}

fn with_offset(index: Option<Index>, n: u32) -> Option<Index>
    ensures { result ≡ with_offset_at index n }
{
    let index = index?;
    Some(Index {
        count: index.count,
        signedness: index.signedness,
        element: index.element,
        offset: Some(n),
    })
}

/// The element of the address, where there is one.
pub fn index(e: &ExprPlan, t: u32) -> Result<Option<Index>, NoMemory>
    ensures { IfOk result (λ index. index ≡ spec.index_at (expr_code e.now).index t) }
{
    match e {
        ExprPlan::Offset(true, _, _) => Ok(None),
        ExprPlan::Offset(false, _, p) => index(p, t),
        ExprPlan::IndexOffset(n, p) => Ok(with_offset(index(p, t)?, *n)),
        ExprPlan::Element(is_computed, s, size, p) => Ok(Some(element(
            p,
            *is_computed,
            *s,
            *size,
            t,
        )?)),
        ExprPlan::Simple(_) => Ok(None),
        ExprPlan::Load(_, _) => Ok(None),
        ExprPlan::Unary(_, _) => Ok(None),
        ExprPlan::Convert(_, _) => Ok(None),
        ExprPlan::Binary(_, _) => Ok(None),
        ExprPlan::Both(_) => Ok(None),
        ExprPlan::Either(_) => Ok(None),
        ExprPlan::Choice(_) => Ok(None),
    }
}

/// The address, where t is the first temporary of its parts.
pub fn address_at(e: &ExprPlan, t: u32) -> Result<Address, NoMemory>
    ensures { IfOk result (λ address. address ≡ spec.address_at (expr_code e.now) t) }
{
    let index = index(e, t)?;
    Ok(Address {
        base: base(e, t),
        offset: e.offset(),
        index,
    })
}
