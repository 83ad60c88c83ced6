// The members of structs, and where they lie (C11 6.7.2.1).
ghost use Rattle.std.specs.Prelude.{◌≡◌, IfOk, Some};
ghost use Rattle.qs_types.specs.EnvOf.{env_tree};
ghost use Rattle.qs_types.specs.Layout.{offset_of, struct_of};
ghost use Rattle.qs_typed_nodes.specs.TypesOf.{members_tree};
ghost use Rattle.qs_typed_forms.specs.Results.{Gives, itself};

use indexmap::IndexMap;
use qs_base::{Name, NoMemory};
use qs_types::{CType, Env};

/// The members of a struct. Want of memory is the other answer.
pub fn struct_members(env: &Env, k: u32) -> Result<&IndexMap<Name, CType>, NoMemory>
    ensures { IfOk result (λ ms. struct_of (env_tree env.now) k ≡ Some (members_tree ms.now)) }
{
    match env.structs().get(k as usize) {
        None => Err(NoMemory),
        Some(structure) => match &structure.members {
            None => Err(NoMemory),
            Some(members) => Ok(members),
        },
    }
}

/// The offset of the member at this place. Want of memory is the other answer.
pub fn offset_at(env: &Env, k: u32, i: usize) -> Result<u32, NoMemory>
    ensures { Gives itself (offset_of (env_tree env.now) k i) result }
{
    match env.layout_of(k) {
        None => Err(NoMemory),
        Some(layout) => match layout.offsets.get(i) {
            None => Err(NoMemory),
            Some(offset) => Ok(*offset),
        },
    }
}
