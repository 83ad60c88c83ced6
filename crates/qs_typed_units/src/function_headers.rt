// The headers of the functions of a unit (C11 6.7.6.3, 6.9.1).
ghost use Rattle.std.specs.Map.{lookup};
ghost use Rattle.std.specs.Prelude.{◌≡◌, nat_eq, IsTrue, None};
ghost use Rattle.qs_meaning.specs.Units.{scalars_of};
ghost use Rattle.qs_typed_units.specs.HeadersOf.{AddsHeader, AddsHeaders, headers_in};
ghost use Rattle.qs_typed_nodes.specs.KnownOf.{table_headers};
ghost use Rattle.qs_typed_units.specs.LocalsOf.{parameters_in};
ghost use Rattle.qs_typed_forms.specs.Results.{Gives, elements};

use indexmap::IndexMap;
use qs_base::NoMemory;
use qs_memory::Scalar;
use qs_syntax::{Decl, Function, Parameter};
use qs_typed_nodes::type_in;
use qs_typed_trees::scalar_of;
use qs_types::CType;
use std::alloc::Global;

/// The scalar types of parameters.
fn parameter_scalars(
    alloc: Global,
    types: &[Option<CType>],
    ps: &[Parameter],
) -> Result<Vec<Scalar>, NoMemory>
    ensures { Gives elements (scalars_of (parameters_in types.now ps.now)) result }
{
    let mut all = Vec::new(alloc);
    for p in ps {
        match type_in(types, p.node.id) {
            None => return Err(NoMemory),
            Some(t) => all.push(scalar_of(t))?,
        }
    }
    Ok(all)
}

/// Whether no header stands at this node yet.
fn is_new(headers: &IndexMap<u32, Vec<Scalar>>, node: u32) -> bool
    ensures { IsTrue result → lookup (nat_eq node) (headers.now).entries ≡ None }
{
    match headers.get(&node) {
        None => true,
        Some(_) => false,
    }
}

/// Adds a header behind others, at whose nodes it doesn't stand.
#[tactic(auto, using(crate::proofs::HeaderTables::noted))]
fn note_header(
    alloc: Global,
    types: &[Option<CType>],
    f: &Function,
    headers: &mut IndexMap<u32, Vec<Scalar>>,
) -> Result<(), NoMemory>
    ensures { AddsHeader types.now f.now headers.old headers.new result }
{
    let scalars = parameter_scalars(alloc, types, &f.parameters)?;
    if !is_new(headers, f.node.id) {
        return Err(NoMemory);
    }
    headers.insert(f.node.id, scalars)?;
    Ok(())
}

#[tactic(auto, using(crate::proofs::HeaderTables::one_header))]
fn declaration_header(
    alloc: Global,
    types: &[Option<CType>],
    d: &Decl,
    headers: &mut IndexMap<u32, Vec<Scalar>>,
) -> Result<(), NoMemory>
    ensures { AddsHeaders types.now d.now headers.old headers.new result }
{
    match d {
        Decl::Struct(_) => Ok(()),
        Decl::Forward(_) => Ok(()),
        Decl::Typedef(_) => Ok(()),
        Decl::Function(f) => note_header(alloc, types, f, headers),
        Decl::Variable(_) => Ok(()),
    }
}

/// The headers of the functions that are declared, each by the number of its node. Want of memory
/// is the other answer.
pub fn headers(
    alloc: Global,
    types: &[Option<CType>],
    ds: &[Decl],
) -> Result<IndexMap<u32, Vec<Scalar>>, NoMemory>
    ensures { Gives table_headers (headers_in types.now ds.now) result }
{
    let mut headers = IndexMap::new(alloc);
    for d in ds {
        declaration_header(alloc, types, d, &mut headers)?;
    }
    Ok(headers)
}
