// The image of a source.
ghost use Rattle.std.specs.Prelude.{IfOk};
ghost use Rattle.qs_core.specs.UnitTrees.{unit_tree};
ghost use Rattle.qs_typing_findings.specs.TypedOf.{typed_tree};
ghost use Rattle.qs_compile.specs.Compiled.{IsImageOfSource, IsImageOfSourcesWith};

use crate::building::build_image;
use qs_base::NoMemory;
use qs_core::CoreUnit;
use qs_elaborate::elaborate;
use qs_image::Image;
use qs_typing_findings::TypedUnit;
use std::alloc::Global;

/// The image of a source that is typed, by its core: the code of its linear code, its values in
/// places that keep what it does. It does what the source does. Want of memory is the other answer, also where
/// the core passes a size. The core of a typed unit passes at most that of the names, which have
/// more than 1,048,576 bytes together in no text within the source's limit (`units_pass_no_size`).
pub fn compile_core(alloc: Global, core: &CoreUnit) -> Result<Image, NoMemory>
    ensures { IfOk result (IsImageOfSourcesWith (unit_tree core.now)) }
{
    match build_image(alloc, core) {
        Ok(image) => Ok(image),
        Err(_) => Err(NoMemory),
    }
}

/// The image of a source that is typed, over its core, which is made for it. It does what the
/// source does. Want of memory is the other answer, also where the names of the functions have more
/// than 1,048,576 bytes together.
pub fn compile(alloc: Global, typed: &TypedUnit) -> Result<Image, NoMemory>
    ensures { IfOk result (IsImageOfSource (typed_tree typed.now)) }
{
    let core = elaborate(alloc, typed)?;
    let image = compile_core(alloc, &core)?;
    Ok(image)
}
