// Which locals of a function are variables and which are blocks, their types and sizes.
ghost use Rattle.std.specs.Prelude.{◌≡◌, ◌∷◌, [], option_map};
ghost use Rattle.qs_meaning.specs.Units.{scalars_of, sizes_of};
ghost use Rattle.qs_types.specs.EnvOf.{env_tree};
ghost use Rattle.qs_types.specs.Placed.{is_no_scalar, is_placed};
ghost use Rattle.qs_types.specs.TypeOf.{type_tree};
ghost use Rattle.qs_typed_nodes.specs.KnownFunctions.{local_at, with_locals, with_parameters};
ghost use Rattle.qs_typed_units.specs.LocalsOf.{Places, Puts, locals_in};
ghost use Rattle.qs_typed_forms.specs.Results.{Gives, Inserts, elements};
ghost use Rattle.qs_typed_nodes.specs.TypesOf.{types_tree};

use indexmap::IndexSet;
use qs_base::NoMemory;
use qs_memory::Scalar;
use qs_typed_forms::size_in;
use qs_typed_nodes::{Locals, type_in};
use qs_typed_trees::scalar_of;
use qs_types::{CType, Env, is_scalar};
use std::alloc::Global;

// ---- places

/// Adds a node behind others that it isn't among. Want of memory is the other answer, also where it
/// is among them.
#[tactic(auto, using(qs_typed_nodes::proofs::PlaceTables::added_last))]
pub fn insert(nodes: &mut IndexSet<u32>, node: u32) -> Result<(), NoMemory>
    ensures { Inserts (node ∷ []) nodes.old nodes.new result }
{
    if nodes.contains(&node) {
        return Err(NoMemory);
    }
    nodes.insert(node)?;
    Ok(())
}

fn is_no_scalar(t: Option<&CType>) -> bool
    ensures { result ≡ is_no_scalar (option_map (λ t. type_tree t.now) t.entry) }
{
    match t {
        None => false,
        Some(t) => !is_scalar(t),
    }
}

/// Whether a local is a block of memory.
#[tactic(auto, using(qs_typed_nodes::proofs::PlaceTables::one_of))]
fn is_placed(types: &[Option<CType>], addressed: &IndexSet<u32>, node: u32) -> bool
    ensures { result ≡ is_placed (addressed.now).keys (local_at (types_tree types.now) node) }
{
    addressed.contains(&node) || is_no_scalar(type_in(types, node))
}

/// Gives parameters their variables, and those that are placed their blocks.
#[tactic(auto, using(qs_typed_nodes::proofs::PlaceTables::parameter_placed))]
fn place_parameters(
    types: &[Option<CType>],
    addressed: &IndexSet<u32>,
    nodes: &[u32],
    locals: &mut Locals,
) -> Result<(), NoMemory>
    ensures { Puts with_parameters types.now addressed.now nodes.now locals.old locals.new result }
{
    for node in nodes {
        insert(&mut locals.variables, *node)?;
        if is_placed(types, addressed, *node) {
            insert(&mut locals.placed, *node)?;
        }
    }
    Ok(())
}

/// Gives locals their blocks or their variables.
#[tactic(auto, using(qs_typed_nodes::proofs::PlaceTables::local_placed))]
fn place_locals(
    types: &[Option<CType>],
    addressed: &IndexSet<u32>,
    nodes: &[u32],
    locals: &mut Locals,
) -> Result<(), NoMemory>
    ensures { Puts with_locals types.now addressed.now nodes.now locals.old locals.new result }
{
    for node in nodes {
        if is_placed(types, addressed, *node) {
            insert(&mut locals.placed, *node)?;
        } else {
            insert(&mut locals.variables, *node)?;
        }
    }
    Ok(())
}

/// The places of the parameters and locals at these nodes.
#[tactic(auto, using(qs_typed_nodes::proofs::PlaceTables::placed_in_order))]
pub fn places_of(
    alloc: Global,
    types: &[Option<CType>],
    addressed: &IndexSet<u32>,
    parameters: &[u32],
    locals: &[u32],
) -> Result<Locals, NoMemory>
    ensures { Places types.now addressed.now parameters.now locals.now result }
{
    let mut places = Locals {
        variables: IndexSet::new(alloc),
        placed: IndexSet::new(alloc),
    };
    place_parameters(types, addressed, parameters, &mut places)?;
    place_locals(types, addressed, locals, &mut places)?;
    Ok(places)
}

// ---- variables and blocks

/// The types of variables. Want of memory is the other answer.
pub fn scalars(
    alloc: Global,
    types: &[Option<CType>],
    nodes: &IndexSet<u32>,
) -> Result<Vec<Scalar>, NoMemory>
    ensures { Gives elements (scalars_of (locals_in types.now nodes.now)) result }
{
    let mut all = Vec::new(alloc);
    for i in 0..nodes.len() {
        match type_in(types, nodes[i]) {
            None => return Err(NoMemory),
            Some(t) => all.push(scalar_of(t))?,
        }
    }
    Ok(all)
}

/// The sizes of placed locals. Want of memory is the other answer.
pub fn sizes(
    alloc: Global,
    env: &Env,
    types: &[Option<CType>],
    nodes: &IndexSet<u32>,
) -> Result<Vec<u32>, NoMemory>
    ensures { Gives elements (sizes_of (env_tree env.now) (locals_in types.now nodes.now)) result }
{
    let mut all = Vec::new(alloc);
    for i in 0..nodes.len() {
        match type_in(types, nodes[i]) {
            None => return Err(NoMemory),
            Some(t) => all.push(size_in(env, t)?)?,
        }
    }
    Ok(all)
}
