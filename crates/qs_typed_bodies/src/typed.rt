// The typed tree of an expression (C11 6.5).
ghost use Rattle.std.specs.Prelude.{◌≡◌, IfOk};
ghost use Rattle.qs_meaning.specs.Expressions.{constant_form};
ghost use Rattle.qs_syntax.specs.TreeOf.{expr_tree, shape_tree};
ghost use Rattle.qs_typed_forms.specs.FormOf.{IsForm, form_tree, typed_tree};
ghost use Rattle.qs_typed_nodes.specs.Known.{form_known, known, with_conversion};
ghost use Rattle.qs_typed_nodes.specs.KnownOf.{Knows, KnowsArguments, known_tree};
ghost use Rattle.qs_typed_trees.specs.TreeOf.{argument_tree};

use crate::members::member_form;
use qs_base::{Name, NoMemory};
use qs_memory::Scalar;
use qs_syntax::{Expr, Shape};
use qs_typed_forms::{Form, Typed, between, value_in_use};
use qs_typed_nodes::Known;
use qs_typed_operators::{
    assign_form, binary_form, cast_form, comma_form, conditional_form, size_form, step_form,
    subscript_form, unary_form,
};
use qs_typed_trees::{Argument, Expression, scalar_of};
use std::alloc::Global;

/// A literal (C11 6.4.4.1, 6.4.4.4).
fn constant_form(n: u32, is_unsigned: bool) -> Form
    ensures { form_tree result ≡ constant_form n is_unsigned }
{
    if is_unsigned {
        Form::Value(Expression::Constant(Scalar::Unsigned, n))
    } else {
        Form::Value(Expression::Constant(Scalar::Int, n))
    }
}

/// An argument is converted to the type of its parameter (C11 6.5.2.2p7).
#[tactic(auto, using(qs_typed_operators::proofs::OperationTypes::scalar_in_use))]
fn with_conversion(alloc: Global, s: Scalar, a: Typed<'_>) -> Result<Argument, NoMemory>
    ensures { IfOk result (λ r. argument_tree r ≡ with_conversion s (typed_tree a.entry)) }
{
    let conversion = between(scalar_of(a.of), s);
    let value = value_in_use(alloc, a)?;
    Ok(Argument { conversion, value })
}

/// An expression with its type.
#[cycle(typed)]
pub fn typed<'a>(alloc: Global, k: &Known<'a>, e: &Expr) -> Result<Typed<'a>, NoMemory>
    ensures { Knows typed_tree known k.now (expr_tree e.now) result }
{
    let of = k.type_at(e.node.id)?;
    let form = form_of(alloc, k, e.node.id, &e.shape)?;
    Ok(Typed { of, form })
}

#[cycle(typed)]
fn form_of(alloc: Global, k: &Known<'_>, node: u32, shape: &Shape) -> Result<Form, NoMemory>
    ensures { IsForm (form_known (known_tree k.now) node (shape_tree shape.now)) result }
{
    match shape {
        Shape::Constant(n, is_unsigned) => Ok(constant_form(*n, *is_unsigned)),
        Shape::Text(_) => k.text_form(alloc, node),
        Shape::Name(_) => k.name_form(alloc, node),
        Shape::Unary(operator, a) => {
            let a = typed(alloc, k, a)?;
            unary_form(alloc, *operator, a)
        }
        Shape::Step(operator, a) => {
            let a = typed(alloc, k, a)?;
            step_form(alloc, k.env, *operator, a)
        }
        Shape::Cast(_, a) => {
            let t = k.type_at(node)?;
            let a = typed(alloc, k, a)?;
            cast_form(alloc, t, a)
        }
        Shape::SizeofType(name) => k.named_size_form(alloc, name),
        Shape::SizeofExpr(a) => {
            let t = k.type_of(a)?;
            size_form(k.env, t)
        }
        Shape::Binary {
            operator,
            left,
            right,
        } => {
            let a = typed(alloc, k, left)?;
            let b = typed(alloc, k, right)?;
            binary_form(alloc, k.env, *operator, a, b)
        }
        Shape::Assign {
            operator,
            left,
            right,
        } => {
            let a = typed(alloc, k, left)?;
            let b = typed(alloc, k, right)?;
            assign_form(alloc, k.env, *operator, a, b)
        }
        Shape::Conditional {
            condition,
            then,
            otherwise,
        } => {
            let c = typed(alloc, k, condition)?;
            let a = typed(alloc, k, then)?;
            let b = typed(alloc, k, otherwise)?;
            conditional_form(alloc, c, a, b)
        }
        Shape::Comma(a, b) => {
            let a = typed(alloc, k, a)?;
            let b = typed(alloc, k, b)?;
            comma_form(alloc, a, b)
        }
        Shape::Subscript(a, b) => {
            let a = typed(alloc, k, a)?;
            let b = typed(alloc, k, b)?;
            subscript_form(alloc, k.env, a, b)
        }
        Shape::Member {
            access,
            object,
            name,
        } => {
            let a = typed(alloc, k, object)?;
            member_form(alloc, k.env, *access, a, name)
        }
        Shape::Call(f, es) => {
            let designator = k.designated(alloc, node, f)?;
            let given = arguments(alloc, k, &designator.parameters, es)?;
            Ok(Form::Call(designator.callee, given))
        }
    }
}

/// The arguments of a call, whose parameters have these types.
#[cycle(typed)]
fn arguments(
    alloc: Global,
    k: &Known<'_>,
    parameters: &[Scalar],
    es: &[Expr],
) -> Result<Vec<Argument>, NoMemory>
    ensures { KnowsArguments k.now parameters.now es.now result }
{
    let mut given = Vec::new(alloc);
    if parameters.len() != es.len() {
        return Err(NoMemory);
    }
    for i in 0..es.len() {
        let a = typed(alloc, k, &es[i])?;
        let r = with_conversion(alloc, parameters[i], a)?;
        given.push(r)?;
    }
    Ok(given)
}
