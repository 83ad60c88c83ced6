// The typed tree of functions (C11 6.9.1).
ghost use Rattle.std.specs.Prelude.{◌≡◌, option_map};
ghost use Rattle.qs_syntax.specs.TreeOf.{function_tree};
ghost use Rattle.qs_types.specs.Contexts.{base_in, is_void_type};
ghost use Rattle.qs_types.specs.GivenFunctions.{main_name};
ghost use Rattle.qs_base.specs.Bytes.{same_bytes};
ghost use Rattle.qs_types.specs.TypeNamesOf.{names_tree};
ghost use Rattle.qs_typed_nodes.specs.KnownFunctions.{base_scalar, named_scalar, returns_nothing};
ghost use Rattle.qs_typed_nodes.specs.KnownFunctions.{type_scalar};
ghost use Rattle.qs_typed_nodes.specs.TypesOf.{lent_type};
ghost use Rattle.qs_typed.specs.UnitsOf.{KnowsFunction};

use qs_base::{Name, NoMemory};
use qs_memory::Scalar;
use qs_syntax::{Base, Function, Stmt, TypeName};
use qs_typed_bodies::statements;
use qs_typed_nodes::Known;
use qs_typed_trees::{TypedFunction, scalar_of};
use qs_typed_units::{parameters, scalars, sizes};
use qs_types::{CType, TypeNames, is_void};
use std::alloc::Global;

fn is_main(name: &Name) -> bool
    ensures { result ≡ same_bytes name.now main_name }
{
    name.bytes() == b"main".as_slice()
}

fn is_void_type(t: Option<&CType>) -> bool
    ensures { result ≡ is_void_type (option_map lent_type t.entry) }
{
    match t {
        None => false,
        Some(t) => is_void(t),
    }
}

/// Whether a declaration begins with `void`.
#[tactic(auto, using(qs_types::proofs::NameLookups::no_struct_is))]
fn is_void_base(names: &TypeNames, base: &Base) -> bool
    ensures { result ≡ is_void_type (base_in (names_tree names.now) base.now) }
{
    match base {
        Base::Void => true,
        Base::Int => false,
        Base::Unsigned => false,
        Base::Char => false,
        Base::Struct(_) => false,
        Base::Named(x) => is_void_type(names.type_of(x)),
    }
}

/// Whether its result is `void`.
fn returns_nothing(names: &TypeNames, f: &Function) -> bool
    ensures { result ≡ returns_nothing (names_tree names.now) (function_tree f.now) }
{
    is_void_base(names, &f.result_type.base) && f.result_type.stars == 0
}

fn type_scalar(t: Option<&CType>) -> Scalar
    ensures { result ≡ type_scalar (option_map lent_type t.entry) }
{
    match t {
        None => Scalar::Pointer,
        Some(t) => scalar_of(t),
    }
}

#[tactic(auto, using(crate::proofs::Results::struct_scalar))]
fn base_scalar(names: &TypeNames, base: &Base) -> Scalar
    ensures { result ≡ base_scalar (names_tree names.now) base.now }
{
    match base {
        Base::Void => Scalar::Int,
        Base::Int => Scalar::Int,
        Base::Unsigned => Scalar::Unsigned,
        Base::Char => Scalar::Char,
        Base::Struct(_) => Scalar::Pointer,
        Base::Named(x) => type_scalar(names.type_of(x)),
    }
}

/// The scalar type that a type by its name is.
pub fn named_scalar(names: &TypeNames, name: &TypeName) -> Scalar
    ensures { result ≡ named_scalar (names_tree names.now) name.now }
{
    if name.stars == 0 {
        base_scalar(names, &name.base)
    } else {
        Scalar::Pointer
    }
}

/// A function with this body, whose result and places are those that are known.
pub fn function(
    alloc: Global,
    k: &Known<'_>,
    f: &Function,
    body: &[Stmt],
) -> Result<TypedFunction, NoMemory>
    ensures { KnowsFunction k.now f.now body.now result }
{
    let parameters = parameters(alloc, k, &f.parameters)?;
    let variables = scalars(alloc, k.types, &k.locals.variables)?;
    let blocks = sizes(alloc, k.env, k.types, &k.locals.placed)?;
    let body = statements(alloc, k, body)?;
    Ok(TypedFunction {
        name: f.name.copy(alloc)?,
        result: if returns_nothing(k.type_names, f) {
            None
        } else {
            Some(k.result)
        },
        parameters,
        variables,
        blocks,
        body,
        is_main: is_main(&f.name),
    })
}
