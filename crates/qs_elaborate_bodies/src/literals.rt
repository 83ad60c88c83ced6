// Literals of core, and conversions, which fold on them (C11 6.3, 6.4.4).
ghost use Rattle.std.specs.Prelude.{◌≡◌};
ghost use Rattle.qs_memory.specs.declared.scalar.Scalar.TheVariants as scalars;
ghost use Rattle.qs_memory.specs.Values.{convert, integer, address, null};
ghost use Rattle.qs_core.specs.TreeOf.{core_expr};
ghost use Rattle.qs_typed_trees.specs.TreeOf.{conversion_tree};
ghost use Rattle.qs_meaning.specs.States.{convert_by};
ghost use Rattle.qs_elaborate_bodies.specs.LiteralOf.{value_of, option_value, option_converted};
ghost use Rattle.qs_elaborate_bodies.specs.Literals as spec;
ghost use Rattle.qs_elaborate_bodies.specs.CoreOf.{converted};
ghost use Rattle.qs_elaborate_bodies.specs.Results.{Gives};

use qs_base::NoMemory;
use qs_core::CoreExpr;
use qs_memory::Scalar;
use qs_typed_trees::Conversion;
use std::alloc::Global;

/// The value of a literal.
#[derive(Clone, Copy)]
pub enum Literal {
    /// an integer, as its 32 bits
    Integer(u32),
    /// a null pointer
    Null,
}

/// The value of an expression of core that is a literal.
pub fn literal_value(a: &CoreExpr) -> Option<Literal>
    ensures { option_value result ≡ spec.literal_value (core_expr a.now) }
{
    match a {
        CoreExpr::Literal(_, n) => Some(Literal::Integer(*n)),
        CoreExpr::Null => Some(Literal::Null),
        CoreExpr::Variable(_, _) => None,
        CoreExpr::Temporary(_, _) => None,
        CoreExpr::Address(_) => None,
        CoreExpr::Load(_, _) => None,
        CoreExpr::Member(_, _) => None,
        CoreExpr::Unary(_, _) => None,
        CoreExpr::Binary(_, _) => None,
        CoreExpr::Convert(_, _) => None,
        CoreExpr::And(_) => None,
        CoreExpr::Or(_) => None,
        CoreExpr::Conditional(_, _, _) => None,
    }
}

/// Whether an expression of core is a literal.
pub fn is_literal(a: &CoreExpr) -> bool
    ensures { result ≡ spec.is_literal (core_expr a.now) }
{
    match a {
        CoreExpr::Literal(_, _) => true,
        CoreExpr::Null => true,
        CoreExpr::Variable(_, _) => false,
        CoreExpr::Temporary(_, _) => false,
        CoreExpr::Address(_) => false,
        CoreExpr::Load(_, _) => false,
        CoreExpr::Member(_, _) => false,
        CoreExpr::Unary(_, _) => false,
        CoreExpr::Binary(_, _) => false,
        CoreExpr::Convert(_, _) => false,
        CoreExpr::And(_) => false,
        CoreExpr::Or(_) => false,
        CoreExpr::Conditional(_, _, _) => false,
    }
}

// ---- values in another type

fn pointer_of_integer(n: u32) -> Option<Literal>
    ensures { option_value result ≡ convert scalars.Pointer (integer n) }
{
    if n == 0 { Some(Literal::Null) } else { None }
}

fn convert_integer(to: Scalar, n: u32) -> Option<Literal>
    ensures { option_value result ≡ convert to (integer n) }
{
    match to {
        Scalar::Char => Some(Literal::Integer(n % 256)),
        Scalar::Int => Some(Literal::Integer(n)),
        Scalar::Unsigned => Some(Literal::Integer(n)),
        Scalar::Pointer => pointer_of_integer(n),
    }
}

fn convert_null(to: Scalar) -> Option<Literal>
    ensures { option_value result ≡ convert to (address null) }
{
    match to {
        Scalar::Char => None,
        Scalar::Int => None,
        Scalar::Unsigned => None,
        Scalar::Pointer => Some(Literal::Null),
    }
}

fn convert(to: Scalar, x: Literal) -> Option<Literal>
    ensures { option_value result ≡ convert to (value_of x) }
{
    match x {
        Literal::Integer(n) => convert_integer(to, n),
        Literal::Null => convert_null(to),
    }
}

fn convert_by(c: Conversion, x: Literal) -> Option<Literal>
    ensures { option_value result ≡ convert_by (conversion_tree c) (value_of x) }
{
    match c {
        Conversion::Unchanged => Some(x),
        Conversion::Converted(_, to) => convert(to, x),
    }
}

/// The value of a literal after a conversion.
pub fn converted_value(c: Conversion, x: Option<Literal>) -> Option<Literal>
    ensures { option_value result ≡ option_converted (conversion_tree c) (option_value x) }
{
    convert_by(c, x?)
}

// ---- conversions

fn literal_of(s: Scalar, x: Literal) -> CoreExpr
    ensures { core_expr result ≡ spec.literal_of s (value_of x) }
{
    match x {
        Literal::Integer(n) => CoreExpr::Literal(s, n),
        Literal::Null => CoreExpr::Null,
    }
}

fn folded(alloc: Global, to: Scalar, a: CoreExpr, x: Option<Literal>) -> Result<CoreExpr, NoMemory>
    ensures { Gives (spec.folded to (core_expr a) (option_value x)) result }
{
    match x {
        None => Ok(CoreExpr::Convert(to, Box::new(alloc, a)?)),
        Some(x) => Ok(literal_of(to, x)),
    }
}

/// A value after a conversion.
pub fn converted(alloc: Global, c: Conversion, a: CoreExpr) -> Result<CoreExpr, NoMemory>
    ensures { Gives (converted c a) result }
{
    match c {
        Conversion::Unchanged => Ok(a),
        Conversion::Converted(_, to) => {
            let x = converted_value(c, literal_value(&a));
            folded(alloc, to, a, x)
        }
    }
}
