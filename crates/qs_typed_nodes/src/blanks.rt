// What an object holds where nothing else is given (C11 6.7.9p10, p21).
ghost use Rattle.std.specs.Prelude.{◌≡◌, ◌-◌, IfOk, Some};
ghost use Rattle.qs_memory.specs.BlankOf.{blank_tree};
ghost use Rattle.qs_memory.specs.Memory.{zeros};
ghost use Rattle.qs_meaning.specs.Blanks.{blank_by, blank_of};
ghost use Rattle.qs_types.specs.EnvOf.{env_tree};
ghost use Rattle.qs_types.specs.Layout.{defined_structs, layout_of};
ghost use Rattle.qs_types.specs.StructsOf.{layout_tree, structs_tree};
ghost use Rattle.qs_types.specs.TypeOf.{type_tree};
ghost use Rattle.qs_typed_forms.specs.Results.{Gives};
ghost use Rattle.qs_typed_nodes.specs.TypesOf.{blank_in, blanks_in, joined_tree};

use crate::structs::struct_members;
use indexmap::IndexMap;
use qs_base::{Name, NoMemory, sum};
use qs_memory::Blank;
use qs_typed_forms::size_in;
use qs_types::{CType, Env, StructLayout, StructType};
use std::alloc::Global;

/// Types that nest deeper are answered as want of memory: the walk over them is on the native
/// stack.
const ROOM: u32 = 10_000;

/// How many structs have members.
fn defined_structs(structs: &[StructType]) -> usize
    ensures { result ≡ defined_structs (structs_tree structs.now) }
{
    let mut count = 0;
    for s in structs {
        if s.members.is_some() {
            count += 1;
        }
    }
    count
}

fn layout_in(env: &Env, k: u32) -> Result<&StructLayout, NoMemory>
    ensures { IfOk result (λ l. layout_of (env_tree env.now) k ≡ Some (layout_tree l.now)) }
{
    match env.layout_of(k) {
        None => Err(NoMemory),
        Some(layout) => Ok(layout),
    }
}

/// What a type holds, whose structs nest at most so deep.
#[cycle(blank)]
fn blank_by(alloc: Global, room: u32, env: &Env, depth: usize, t: &CType) -> Result<Blank, NoMemory>
    ensures { Gives blank_tree (blank_by (blanks_in depth env.now) (type_tree t.now)) result }
{
    if room == 0 {
        return Err(NoMemory);
    }
    match t {
        CType::Int => Ok(Blank::Zeros(4)),
        CType::Unsigned => Ok(Blank::Zeros(4)),
        CType::Char => Ok(Blank::Zeros(1)),
        CType::Void => Err(NoMemory),
        CType::Pointer(_) => Ok(Blank::Nulls(1)),
        CType::Array(element, n) => {
            let part = blank_by(alloc, room - 1, env, depth, element)?;
            Ok(Blank::Repeated(*n, Box::new(alloc, part)?))
        }
        CType::Struct(k) => struct_blank(alloc, room - 1, env, depth, *k),
    }
}

#[tactic(auto, using(crate::proofs::BlankTurns::struct_is))]
#[cycle(blank)]
fn struct_blank(
    alloc: Global,
    room: u32,
    env: &Env,
    depth: usize,
    k: u32,
) -> Result<Blank, NoMemory>
    ensures { Gives blank_tree (blanks_in depth env.now k) result }
{
    if room == 0 || depth == 0 {
        return Err(NoMemory);
    }
    let members = struct_members(env, k)?;
    let layout = layout_in(env, k)?;
    let parts = members_parts(alloc, room - 1, env, depth - 1, members, layout)?;
    Ok(Blank::Joined(parts))
}

/// What lies from one place to another, behind which it may be.
fn padding(to: u32, from: u32) -> Blank
    ensures { blank_tree result ≡ zeros (to - from) }
{
    Blank::Zeros(to.saturating_sub(from))
}

/// The members, each at its offset, with the padding before it, and then the padding at the end.
#[cycle(blank)]
fn members_parts(
    alloc: Global,
    room: u32,
    env: &Env,
    depth: usize,
    members: &IndexMap<Name, CType>,
    layout: &StructLayout,
) -> Result<Vec<Blank>, NoMemory>
    ensures { Gives joined_tree (blank_in depth env.now members.now layout.now) result }
{
    if room == 0 || layout.offsets.len() < members.len() {
        return Err(NoMemory);
    }
    let mut parts = Vec::new(alloc);
    let mut at = 0;
    for i in 0..members.len() {
        let t = &members[i];
        let offset = layout.offsets[i];
        let part = blank_by(alloc, room - 1, env, depth, t)?;
        let size = size_in(env, t)?;
        let end = sum(offset, size)?;
        parts.push(padding(offset, at))?;
        parts.push(part)?;
        at = end;
    }
    parts.push(padding(layout.size, at))?;
    Ok(parts)
}

/// What an object of this type holds.
pub fn blank_of(alloc: Global, env: &Env, t: &CType) -> Result<Blank, NoMemory>
    ensures { Gives blank_tree (blank_of (env_tree env.now) (type_tree t.now)) result }
{
    let depth = defined_structs(env.structs());
    blank_by(alloc, ROOM, env, depth, t)
}
