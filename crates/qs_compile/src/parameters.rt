// Main's parameters.
ghost use Rattle.std.specs.Prelude.{◌≡◌, ◌≤◌, ◌<◌, ◌^◌, length, IfOk, if◌then◌else◌};
ghost use Rattle.qs_core.specs.TreeOf.{function_tree};
ghost use Rattle.qs_core.specs.Interfaces.{parameter_types};
ghost use Rattle.qs_memory.specs.Scalars.{same_scalar};
ghost use Rattle.qs_memory.specs.declared.scalar.Scalar.TheVariants as scalars;
ghost use Rattle.qs_base.specs.Parameters.{most_main_parameters};
ghost use Rattle.qs_compile.specs.Units.{set_of};

use qs_base::NoMemory;
use qs_core::CoreFunction;
use qs_memory::Scalar;
use std::alloc::Global;

// The lowest bit of a set whose first parameter has this type.
fn bit(s: Scalar) -> u32
    ensures bit { result ≡ (if same_scalar s scalars.Unsigned then 1 else 0) }
    ensures small { result ≤ 1 }
{
    match s {
        Scalar::Char => 0,
        Scalar::Int => 0,
        Scalar::Unsigned => 1,
        Scalar::Pointer => 0,
    }
}

/// The types of a function's parameters: the first of its variables.
#[tactic(auto, using(crate::proofs::UnsignedLaws::types_taken))]
pub fn parameter_types(alloc: Global, f: &CoreFunction) -> Result<Vec<Scalar>, NoMemory>
    ensures { IfOk result (λ types. types.items ≡ parameter_types (function_tree f.now)) }
{
    let mut types = Vec::new(alloc);
    let count = f.parameters.len().min(f.variables.len());
    for variable in &f.variables[..count] {
        types.push(variable.scalar)?;
    }
    Ok(types)
}

/// The parameters that are `unsigned`, as bits from the lowest on.
pub fn unsigned_set(types: &[Scalar]) -> u32
    requires { length types.now ≤ most_main_parameters }
    ensures set { result ≡ set_of types.now }
    ensures small { result < 2 ^ length types.now }
{
    let mut set = 0;
    let mut i = types.len();
    while i > 0 {
        i -= 1;
        set = 2 * set + bit(types[i]);
    }
    set
}
