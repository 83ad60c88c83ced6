// Expressions (C11 6.5): their trees, and the numbers of their nodes.
ghost use Rattle.std.specs.Prelude.{IfOk, OnOk};
ghost use Rattle.qs_syntax.specs.Sorts.{HasRoom, Numbers, Counts, Appends, arguments};
ghost use Rattle.qs_syntax.specs.Sorts.{expression_list, expressions, shapes};

use crate::nodes::{Node, number_node};
use crate::types::TypeName;
use qs_base::{Name, NoMemory};
use qs_syntax_vocabulary::{
    Access, AssignmentOperator, BinaryOperator, StepOperator, Text, UnaryOperator,
};
use std::mem;

/// An expression (C11 6.5).
#[cycle(expr)]
pub struct Expr {
    /// Its node.
    pub node: Node,
    /// What it is.
    pub shape: Shape,
}

/// What an expression is, and its parts.
#[cycle(expr)]
pub enum Shape {
    /// A number or character: its value, and whether it is `unsigned` and no `int`.
    Constant(u32, bool),
    /// A string literal; literals that stand side by side are one.
    Text(Text),
    /// The name of a variable or parameter.
    Name(Name),
    /// A unary operator.
    Unary(UnaryOperator, Box<Expr>),
    /// A step by one.
    Step(StepOperator, Box<Expr>),
    /// A cast.
    Cast(TypeName, Box<Expr>),
    /// `sizeof` of a type.
    SizeofType(TypeName),
    /// `sizeof` of an expression.
    SizeofExpr(Box<Expr>),
    /// An operator between two operands.
    Binary {
        /// The operator.
        operator: BinaryOperator,
        /// The operand before it.
        left: Box<Expr>,
        /// The operand behind it.
        right: Box<Expr>,
    },
    /// An assignment.
    Assign {
        /// The operator.
        operator: AssignmentOperator,
        /// What is assigned to.
        left: Box<Expr>,
        /// The operand behind the operator.
        right: Box<Expr>,
    },
    /// `a ? b : c`
    Conditional {
        /// The operand before `?`.
        condition: Box<Expr>,
        /// The operand between `?` and `:`.
        then: Box<Expr>,
        /// The operand behind `:`.
        otherwise: Box<Expr>,
    },
    /// `a, b`
    Comma(Box<Expr>, Box<Expr>),
    /// `a[b]`
    Subscript(Box<Expr>, Box<Expr>),
    /// `a.m` or `a->m`
    Member {
        /// How the member is reached.
        access: Access,
        /// The struct, or the pointer to it.
        object: Box<Expr>,
        /// The member's name.
        name: Name,
    },
    /// A call: the function's name and the arguments.
    Call(Name, Vec<Expr>),
}

// ---- how trees are dropped
// By hand, since a derived drop of a tree stands with all its cases at each place where a tree may
// be dropped.

impl Drop for Expr {
    #[cycle(drop_expr)]
    fn drop(self) {
        let Expr { node: _, shape: _ } = self;
    }
}

impl Drop for Shape {
    #[cycle(drop_expr)]
    fn drop(self) {
        match self {
            Shape::Constant(_, _) => {}
            Shape::Text(_) => {}
            Shape::Name(_) => {}
            Shape::Unary(_, _) => {}
            Shape::Step(_, _) => {}
            Shape::Cast(_, _) => {}
            Shape::SizeofType(_) => {}
            Shape::SizeofExpr(_) => {}
            Shape::Binary {
                operator: _,
                left: _,
                right: _,
            } => {}
            Shape::Assign {
                operator: _,
                left: _,
                right: _,
            } => {}
            Shape::Conditional {
                condition: _,
                then: _,
                otherwise: _,
            } => {}
            Shape::Comma(_, _) => {}
            Shape::Subscript(_, _) => {}
            Shape::Member {
                access: _,
                object: _,
                name: _,
            } => {}
            Shape::Call(_, _) => {}
        }
    }
}

// ---- the numbers of the nodes

/// Numbers the nodes, where `tokens` has the token of each node before them; theirs are put behind.
#[cycle(number_expr)]
#[tactic(auto, using(crate::proofs::NumberingLoops::numbering))]
pub fn number_expr(e: &mut Expr, tokens: &mut Vec<u32>) -> Result<(), NoMemory>
    requires { HasRoom expressions tokens.old e.old }
    ensures tree { OnOk result (Numbers expressions tokens.old e.old e.new) }
    ensures end { OnOk result (Counts expressions tokens.old e.old tokens.new) }
    ensures tokens { OnOk result (Appends expressions tokens.old e.old tokens.new) }
{
    e.node = number_node(e.node, tokens)?;
    let shape = mem::replace(&mut e.shape, Shape::Constant(0, false));
    e.shape = shape.with_numbers(tokens)?;
    Ok(())
}

/// The same, of an expression that is handed over.
pub fn number_owned_expr(e: Expr, tokens: &mut Vec<u32>) -> Result<Expr, NoMemory>
    requires { HasRoom expressions tokens.old e }
    ensures tree { IfOk result (Numbers expressions tokens.old e) }
    ensures end { OnOk result (Counts expressions tokens.old e tokens.new) }
    ensures tokens { OnOk result (Appends expressions tokens.old e tokens.new) }
{
    let mut e = e;
    number_expr(&mut e, tokens)?;
    Ok(e)
}

#[cycle(number_expr)]
#[tactic(auto, using(crate::proofs::NumberingLoops::numbering))]
fn number_boxed(e: Box<Expr>, tokens: &mut Vec<u32>) -> Result<Box<Expr>, NoMemory>
    requires { HasRoom expressions tokens.old e.value }
    ensures tree { IfOk result (λ to. Numbers expressions tokens.old e.value to.value) }
    ensures end { OnOk result (Counts expressions tokens.old e.value tokens.new) }
    ensures tokens { OnOk result (Appends expressions tokens.old e.value tokens.new) }
{
    let mut e = e;
    number_expr(&mut e, tokens)?;
    Ok(e)
}

impl Shape {
    #[cycle(number_expr)]
    #[tactic(auto, using(crate::proofs::NumberingLoops::numbering))]
    fn with_numbers(self, tokens: &mut Vec<u32>) -> Result<Shape, NoMemory>
        requires { HasRoom shapes tokens.old self }
        ensures tree { IfOk result (Numbers shapes tokens.old self) }
        ensures end { OnOk result (Counts shapes tokens.old self tokens.new) }
        ensures tokens { OnOk result (Appends shapes tokens.old self tokens.new) }
    {
        match self {
            Shape::Constant(value, is_unsigned) => Ok(Shape::Constant(value, is_unsigned)),
            Shape::Text(text) => Ok(Shape::Text(text)),
            Shape::Name(name) => Ok(Shape::Name(name)),
            Shape::Unary(operator, a) => Ok(Shape::Unary(operator, number_boxed(a, tokens)?)),
            Shape::Step(operator, a) => Ok(Shape::Step(operator, number_boxed(a, tokens)?)),
            Shape::Cast(type_name, a) => Ok(Shape::Cast(type_name, number_boxed(a, tokens)?)),
            Shape::SizeofType(type_name) => Ok(Shape::SizeofType(type_name)),
            Shape::SizeofExpr(a) => Ok(Shape::SizeofExpr(number_boxed(a, tokens)?)),
            Shape::Binary {
                operator,
                left,
                right,
            } => Ok(Shape::Binary {
                operator,
                left: number_boxed(left, tokens)?,
                right: number_boxed(right, tokens)?,
            }),
            Shape::Assign {
                operator,
                left,
                right,
            } => Ok(Shape::Assign {
                operator,
                left: number_boxed(left, tokens)?,
                right: number_boxed(right, tokens)?,
            }),
            Shape::Conditional {
                condition,
                then,
                otherwise,
            } => Ok(Shape::Conditional {
                condition: number_boxed(condition, tokens)?,
                then: number_boxed(then, tokens)?,
                otherwise: number_boxed(otherwise, tokens)?,
            }),
            Shape::Comma(a, b) => Ok(Shape::Comma(
                number_boxed(a, tokens)?,
                number_boxed(b, tokens)?,
            )),
            Shape::Subscript(a, b) => Ok(Shape::Subscript(
                number_boxed(a, tokens)?,
                number_boxed(b, tokens)?,
            )),
            Shape::Member {
                access,
                object,
                name,
            } => Ok(Shape::Member {
                access,
                object: number_boxed(object, tokens)?,
                name,
            }),
            Shape::Call(name, arguments) => Ok(Shape::Call(
                name,
                number_arguments(arguments, tokens)?,
            )),
        }
    }
}

#[cycle(number_expr)]
#[tactic(auto, using(crate::proofs::NumberingLoops::exprs_numbering))]
fn number_arguments(es: Vec<Expr>, tokens: &mut Vec<u32>) -> Result<Vec<Expr>, NoMemory>
    requires { HasRoom arguments tokens.old es.items }
    ensures tree { IfOk result (λ to. Numbers arguments tokens.old es.items to.items) }
    ensures end { OnOk result (Counts arguments tokens.old es.items tokens.new) }
    ensures tokens { OnOk result (Appends arguments tokens.old es.items tokens.new) }
{
    let mut es = es;
    number_exprs(&mut es, tokens)?;
    Ok(es)
}

/// Numbers the nodes of all.
#[cycle(number_expr)]
#[tactic(auto, using(crate::proofs::NumberingLoops::numbering))]
pub fn number_exprs(es: &mut [Expr], tokens: &mut Vec<u32>) -> Result<(), NoMemory>
    requires { HasRoom expression_list tokens.old es.old }
    ensures tree { OnOk result (Numbers expression_list tokens.old es.old es.new) }
    ensures end { OnOk result (Counts expression_list tokens.old es.old tokens.new) }
    ensures tokens { OnOk result (Appends expression_list tokens.old es.old tokens.new) }
{
    for e in es.iter_mut() {
        number_expr(e, tokens)?;
    }
    Ok(())
}
