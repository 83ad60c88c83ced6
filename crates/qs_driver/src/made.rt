// What is made of a source that is certified: its image, which isn't written, and main's bound at
// some arguments.
ghost use Rattle.std.specs.Prelude.{◌≡◌, IfOk};
ghost use Rattle.qs_driver.specs.Bounds.{costs_in};
ghost use Rattle.qs_driver.specs.Certified.{words_in, HasItsCore};
ghost use Rattle.qs_driver.specs.Made.{MakesCertified, MakesOn};

use crate::certified::{CertifiedUnit, CertifyOrder, read_certified};
use qs_assert::Amount;
use qs_base::NoMemory;
use qs_certify::bound_of_main;
use qs_compile::compile_core;
use qs_driver_session::{Status, image_words};
use qs_image::{FunctionRecord, Image};
use qs_ports::Store;
use std::alloc::Global;

/// The image of a source, and what main needs of the stack at the arguments.
#[derive(Drop)]
pub struct Made {
    pub image: Image,
    pub bound: Amount,
}

// What a call of each function costs, in order.
fn costs_of(alloc: Global, functions: &[FunctionRecord]) -> Result<Vec<u32>, NoMemory>
    ensures { IfOk result (λ costs. costs.items ≡ costs_in functions.now) }
{
    let mut costs = Vec::new(alloc);
    for function in functions {
        costs.push(function.cost)?;
    }
    Ok(costs)
}

fn image_costs(alloc: Global, image: &Image) -> Result<Vec<u32>, NoMemory>
    ensures { IfOk result (λ costs. costs.items ≡ costs_in image.now.functions) }
{
    costs_of(alloc, &image.functions)
}

/// The image of a certified unit, and main's bound at the arguments, if these are main's.
pub fn make_certified(
    alloc: Global,
    certified: &CertifiedUnit,
    args: &[i64],
) -> Result<Made, Status>
    requires { HasItsCore certified.now }
    ensures { MakesCertified certified.now args.now result }
{
    let image = compile_core(alloc, &certified.core)?;
    image_words(alloc, &image, args)?;
    let costs = image_costs(alloc, &image)?;
    let proofs = &certified.certified.proofs;
    let bound = bound_of_main(alloc, &certified.core, proofs, &costs, args)?;
    Ok(Made { image, bound })
}

/// The image of a source that is certified, and main's bound at the arguments, if these are main's.
/// Nothing is written.
pub fn make<S: Store>(
    alloc: Global,
    store: &mut S,
    inputs: &CertifyOrder<'_>,
    args: &[i64],
) -> Result<Made, Status>
    ensures { MakesOn S.view store.old store.new (words_in inputs.now) args.now result }
{
    let certified = read_certified(alloc, store, inputs)?;
    make_certified(alloc, &certified, args)
}
