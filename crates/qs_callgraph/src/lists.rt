// Lists of functions.
ghost use Rattle.std.specs.Prelude.{◌≡◌, ◌++◌, ◌∷◌, [], OnOk};

use qs_base::{FnId, NoMemory};

/// Puts a function behind the others.
pub fn put(fs: &mut Vec<FnId>, f: FnId) -> Result<(), NoMemory>
    ensures { OnOk result (fs.new.items ≡ fs.old.items ++ f ∷ []) }
{
    fs.push(f)?;
    Ok(())
}
