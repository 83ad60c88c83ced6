// What lowering decides on an expression, before its code is emitted.
ghost use Rattle.std.specs.Prelude.{◌≡◌};
ghost use Rattle.qs_lower_expressions.specs.Plans.{expr_code, index_offset, offset_over};

use crate::operands::truth_of;
use qs_memory::{BinaryOperation, Scalar, Signedness, UnaryOperation};
use qs_tac::Operand;

/// The plan of an expression's code. Where a pointer is taken, the flag tells that its value is
/// computed first; else the parts of its address are taken.
#[cycle(expr_plan)]
pub enum ExprPlan {
    /// an operand as it stands
    Simple(Operand),
    /// the value of this type at the address
    Load(Scalar, Box<ExprPlan>),
    /// the address with the member at this offset
    Offset(bool, u32, Box<ExprPlan>),
    /// the address whose element has the member at this offset
    IndexOffset(u32, Box<ExprPlan>),
    /// the address of an element of this size, behind the left one by the right one
    Element(bool, Signedness, u32, Box<PlanPair>),
    /// an operation on a value
    Unary(UnaryOperation, Box<ExprPlan>),
    /// a value of this type
    Convert(Scalar, Box<ExprPlan>),
    /// an operation on two values
    Binary(BinaryOperation, Box<PlanPair>),
    /// `&&`
    Both(Box<PlanPair>),
    /// `||`
    Either(Box<PlanPair>),
    /// `?:`
    Choice(Box<PlanChoice>),
}

/// The plans of two operands.
#[cycle(expr_plan)]
pub struct PlanPair {
    /// the left one
    pub left: ExprPlan,
    /// the right one
    pub right: ExprPlan,
}

/// The plans of a condition and of two values.
#[cycle(expr_plan)]
pub struct PlanChoice {
    /// the condition
    pub condition: ExprPlan,
    /// the value where it holds
    pub met: ExprPlan,
    /// the value where it doesn't
    pub unmet: ExprPlan,
}

// By hand, as the drops of core's expressions.
impl Drop for ExprPlan {
    #[cycle(drop_plan)]
    fn drop(self) {
        match self {
            ExprPlan::Simple(_) => {}
            ExprPlan::Load(_, _) => {}
            ExprPlan::Offset(_, _, _) => {}
            ExprPlan::IndexOffset(_, _) => {}
            ExprPlan::Element(_, _, _, _) => {}
            ExprPlan::Unary(_, _) => {}
            ExprPlan::Convert(_, _) => {}
            ExprPlan::Binary(_, _) => {}
            ExprPlan::Both(_) => {}
            ExprPlan::Either(_) => {}
            ExprPlan::Choice(_) => {}
        }
    }
}

impl Drop for PlanPair {
    #[cycle(drop_plan)]
    fn drop(self) {
        let PlanPair { left: _, right: _ } = self;
    }
}

impl Drop for PlanChoice {
    #[cycle(drop_plan)]
    fn drop(self) {
        let PlanChoice {
            condition: _,
            met: _,
            unmet: _,
        } = self;
    }
}

impl ExprPlan {
    /// The operand that the expression is, where it needs no instruction.
    pub fn simple(&self) -> Option<Operand>
        ensures { result ≡ (expr_code self.now).simple }
    {
        match self {
            ExprPlan::Simple(o) => Some(*o),
            ExprPlan::Load(_, _) => None,
            ExprPlan::Offset(_, _, _) => None,
            ExprPlan::IndexOffset(_, _) => None,
            ExprPlan::Element(_, _, _, _) => None,
            ExprPlan::Unary(_, _) => None,
            ExprPlan::Convert(_, _) => None,
            ExprPlan::Binary(_, _) => None,
            ExprPlan::Both(_) => None,
            ExprPlan::Either(_) => None,
            ExprPlan::Choice(_) => None,
        }
    }

    /// Whether it is known as a condition, and what it is then.
    pub fn known(&self) -> Option<bool>
        ensures { result ≡ (expr_code self.now).known }
    {
        match self {
            ExprPlan::Simple(o) => truth_of(*o),
            ExprPlan::Load(_, _) => None,
            ExprPlan::Offset(_, _, _) => None,
            ExprPlan::IndexOffset(_, _) => None,
            ExprPlan::Element(_, _, _, _) => None,
            ExprPlan::Unary(_, _) => None,
            ExprPlan::Convert(_, _) => None,
            ExprPlan::Binary(_, _) => None,
            ExprPlan::Both(_) => None,
            ExprPlan::Either(_) => None,
            ExprPlan::Choice(_) => None,
        }
    }

    /// As an address: the offset of the member, where one is taken.
    pub fn offset(&self) -> Option<u32>
        ensures { result ≡ (expr_code self.now).offset }
    {
        match self {
            ExprPlan::Offset(_, n, _) => Some(*n),
            ExprPlan::IndexOffset(_, p) => p.offset(),
            ExprPlan::Element(true, _, _, _) => None,
            ExprPlan::Element(false, _, _, p) => p.left.offset(),
            ExprPlan::Simple(_) => None,
            ExprPlan::Load(_, _) => None,
            ExprPlan::Unary(_, _) => None,
            ExprPlan::Convert(_, _) => None,
            ExprPlan::Binary(_, _) => None,
            ExprPlan::Both(_) => None,
            ExprPlan::Either(_) => None,
            ExprPlan::Choice(_) => None,
        }
    }

    /// As an address: the offset behind the element, where there is an element.
    pub fn index_offset(&self) -> Option<Option<u32>>
        ensures { result ≡ index_offset (expr_code self.now) }
    {
        match self {
            ExprPlan::Offset(true, _, _) => None,
            ExprPlan::Offset(false, _, p) => p.index_offset(),
            ExprPlan::IndexOffset(n, p) => offset_over(*n, p.index_offset()),
            ExprPlan::Element(_, _, _, _) => Some(None),
            ExprPlan::Simple(_) => None,
            ExprPlan::Load(_, _) => None,
            ExprPlan::Unary(_, _) => None,
            ExprPlan::Convert(_, _) => None,
            ExprPlan::Binary(_, _) => None,
            ExprPlan::Both(_) => None,
            ExprPlan::Either(_) => None,
            ExprPlan::Choice(_) => None,
        }
    }
}

// The offset in place of the one that is there.
fn offset_over(n: u32, before: Option<Option<u32>>) -> Option<Option<u32>>
    ensures { result ≡ offset_over n before }
{
    match before {
        None => None,
        Some(_) => Some(Some(n)),
    }
}
