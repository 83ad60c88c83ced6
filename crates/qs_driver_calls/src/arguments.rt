// Main's arguments, by the types of its parameters.
ghost use Rattle.std.specs.Prelude.{◌≡◌, ◌≤◌, length};
ghost use Rattle.qs_base.specs.Parameters.{most_main_parameters};
ghost use Rattle.qs_core.specs.Interfaces.{main_types, parameter_types};
ghost use Rattle.qs_core.specs.TreeOf.{function_tree};
ghost use Rattle.qs_core.specs.UnitTrees.{unit_tree};
ghost use Rattle.qs_driver_calls.specs.Answers.{is_number, FitsTypes};

use qs_core::{CoreFunction, CoreUnit};
use qs_driver_session::{Status, WordsFault};
use qs_memory::Scalar;
use qs_triples::function_of;

// Whether the number is one of the type.
fn is_number(scalar: Scalar, number: i64) -> bool
    ensures { result ≡ is_number scalar number }
{
    match scalar {
        Scalar::Char => 0 <= number && number <= i64::from(u8::MAX),
        Scalar::Int => i64::from(i32::MIN) <= number && number <= i64::from(i32::MAX),
        Scalar::Unsigned => 0 <= number && number <= i64::from(u32::MAX),
        Scalar::Pointer => i64::from(i32::MIN) <= number && number <= i64::from(i32::MAX),
    }
}

// Whether the arguments are those of a main with these parameters, or the status at the first that
// isn't.
fn fit_parameters(main: &CoreFunction, args: &[i64]) -> Result<(), Status>
    requires { length (parameter_types (function_tree main.now)) ≤ most_main_parameters }
    ensures { FitsTypes (parameter_types (function_tree main.now)) args.now result }
{
    let expected = main.parameters.len().min(main.variables.len());
    if args.len() != expected {
        return Err(Status::Words(WordsFault::ArgCount {
            expected: expected as u32,
            given: args.len(),
        }));
    }
    for (i, number) in args.iter().enumerate() {
        if !is_number(main.variables[i].scalar, *number) {
            return Err(Status::Words(WordsFault::ArgRange(i)));
        }
    }
    Ok(())
}

/// Whether the arguments are main's: one for each of its parameters, a number of its type. Or the
/// status at the first that isn't.
pub fn fit_main(unit: &CoreUnit, args: &[i64]) -> Result<(), Status>
    requires { length (main_types (unit_tree unit.now)) ≤ most_main_parameters }
    ensures { FitsTypes (main_types (unit_tree unit.now)) args.now result }
{
    match function_of(unit, unit.main) {
        Some(main) => fit_parameters(main, args),
        None => unreachable!(),
    }
}
