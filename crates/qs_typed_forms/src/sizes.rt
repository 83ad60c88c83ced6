// Sizes of types (C11 6.2.8, 6.5.3.4).
ghost use Rattle.std.specs.Prelude.{◌≡◌, IfOk, Some};
ghost use Rattle.qs_types.specs.EnvOf.{env_tree};
ghost use Rattle.qs_types.specs.Layout.{extent_of, size_of};
ghost use Rattle.qs_types.specs.TypeOf.{type_tree};

use qs_base::NoMemory;
use qs_types::{CType, Env, Extent, extent_of};

/// The size and the alignment of a type. Want of memory is the other answer.
#[tactic(auto, using(crate::proofs::TypeSizes::extent_is))]
pub fn extent_in(env: &Env, t: &CType) -> Result<Extent, NoMemory>
    ensures { IfOk result (λ e. extent_of (env_tree env.now) (type_tree t.now) ≡ Some e) }
{
    match extent_of(env, t) {
        None => Err(NoMemory),
        Some(e) => Ok(e),
    }
}

/// The size of a type (C11 6.5.3.4).
pub fn size_in(env: &Env, t: &CType) -> Result<u32, NoMemory>
    ensures { IfOk result (λ n. size_of (env_tree env.now) (type_tree t.now) ≡ Some n) }
{
    Ok(extent_in(env, t)?.size)
}
