// The command that the words mean: by its name, from its values.
ghost use Rattle.std.specs.Prelude.{◌≡◌, IfOk, None, Some};
ghost use Rattle.qs_cli.specs.Commands.{build_of, check_of, bound_of, derive_of, outline_of};
ghost use Rattle.qs_cli.specs.Commands.{calls_of, run_of, exec_of, sample_of, elf_of, unelf_of};
ghost use Rattle.qs_cli.specs.Reading.{command_of, named_by, texts_of, values_of, IsUsage, Reads};

use crate::commands::{CallsWords, CliFault, Command, ElfWords, UnelfWords};
use crate::table;
use crate::table::OPERAND;
use crate::values::Values;
use std::alloc::Global;

fn build(alloc: Global, values: &Values<'_>) -> Result<Command, CliFault>
    ensures ok { IfOk result (λ c. build_of (values_of values.now) ≡ Some (command_of c)) }
    ensures usage { IsUsage result → build_of (values_of values.now) ≡ None }
{
    Ok(Command::Build {
        source: values.text(alloc, OPERAND)?,
        proof: values.optional_text(alloc, "proof")?,
        out: values.text(alloc, "out")?,
    })
}

fn check(alloc: Global, values: &Values<'_>) -> Result<Command, CliFault>
    ensures ok { IfOk result (λ c. check_of (values_of values.now) ≡ Some (command_of c)) }
    ensures usage { IsUsage result → check_of (values_of values.now) ≡ None }
{
    Ok(Command::Check {
        source: values.text(alloc, OPERAND)?,
        proof: values.optional_text(alloc, "proof")?,
    })
}

fn bound(alloc: Global, values: &Values<'_>) -> Result<Command, CliFault>
    ensures ok { IfOk result (λ c. bound_of (values_of values.now) ≡ Some (command_of c)) }
    ensures usage { IsUsage result → bound_of (values_of values.now) ≡ None }
{
    Ok(Command::Bound {
        source: values.text(alloc, OPERAND)?,
        proof: values.optional_text(alloc, "proof")?,
        args: values.arguments(alloc)?,
    })
}

fn calls(alloc: Global, values: &Values<'_>) -> Result<Command, CliFault>
    ensures ok { IfOk result (λ c. calls_of (values_of values.now) ≡ Some (command_of c)) }
    ensures usage { IsUsage result → calls_of (values_of values.now) ≡ None }
{
    Ok(Command::Calls(CallsWords {
        source: values.text(alloc, OPERAND)?,
        proof: values.text(alloc, "proof")?,
        args: values.arguments(alloc)?,
    }))
}

fn derive(alloc: Global, values: &Values<'_>) -> Result<Command, CliFault>
    ensures ok { IfOk result (λ c. derive_of (values_of values.now) ≡ Some (command_of c)) }
    ensures usage { IsUsage result → derive_of (values_of values.now) ≡ None }
{
    Ok(Command::Derive {
        source: values.text(alloc, OPERAND)?,
        out: values.text(alloc, "out")?,
    })
}

fn outline(alloc: Global, values: &Values<'_>) -> Result<Command, CliFault>
    ensures ok { IfOk result (λ c. outline_of (values_of values.now) ≡ Some (command_of c)) }
    ensures usage { IsUsage result → outline_of (values_of values.now) ≡ None }
{
    Ok(Command::Outline {
        source: values.text(alloc, OPERAND)?,
    })
}

fn run(alloc: Global, values: &Values<'_>) -> Result<Command, CliFault>
    ensures ok { IfOk result (λ c. run_of (values_of values.now) ≡ Some (command_of c)) }
    ensures usage { IsUsage result → run_of (values_of values.now) ≡ None }
{
    Ok(Command::Run {
        image: values.text(alloc, OPERAND)?,
        stack: values.stack()?,
        args: values.arguments(alloc)?,
        input: values.optional_text(alloc, "input")?,
        steps: values.steps()?,
    })
}

fn exec(alloc: Global, values: &Values<'_>) -> Result<Command, CliFault>
    ensures ok { IfOk result (λ c. exec_of (values_of values.now) ≡ Some (command_of c)) }
    ensures usage { IsUsage result → exec_of (values_of values.now) ≡ None }
{
    Ok(Command::Exec {
        source: values.text(alloc, OPERAND)?,
        proof: values.optional_text(alloc, "proof")?,
        args: values.arguments(alloc)?,
        input: values.optional_text(alloc, "input")?,
        steps: values.steps()?,
    })
}

fn sample(alloc: Global, values: &Values<'_>) -> Result<Command, CliFault>
    ensures ok { IfOk result (λ c. sample_of (values_of values.now) ≡ Some (command_of c)) }
    ensures usage { IsUsage result → sample_of (values_of values.now) ≡ None }
{
    Ok(Command::Sample {
        count: values.sample_count()?,
        out: values.optional_text(alloc, "out")?,
    })
}

fn elf(alloc: Global, values: &Values<'_>) -> Result<Command, CliFault>
    ensures ok { IfOk result (λ c. elf_of (values_of values.now) ≡ Some (command_of c)) }
    ensures usage { IsUsage result → elf_of (values_of values.now) ≡ None }
{
    Ok(Command::Elf(ElfWords {
        image: values.text(alloc, OPERAND)?,
        out: values.text(alloc, "out")?,
    }))
}

fn unelf(alloc: Global, values: &Values<'_>) -> Result<Command, CliFault>
    ensures ok { IfOk result (λ c. unelf_of (values_of values.now) ≡ Some (command_of c)) }
    ensures usage { IsUsage result → unelf_of (values_of values.now) ≡ None }
{
    Ok(Command::Unelf(UnelfWords {
        file: values.text(alloc, OPERAND)?,
        out: values.text(alloc, "out")?,
    }))
}

/// The command of this name whose values these words give.
fn named(alloc: Global, name: &str, words: &[String]) -> Result<Command, CliFault>
    ensures ok { IfOk result (λ c. named_by name.now words.now ≡ Some (command_of c)) }
    ensures usage { IsUsage result → named_by name.now words.now ≡ None }
{
    match name {
        "build" => build(alloc, &Values::read(alloc, &table::BUILD, words)?),
        "check" => check(alloc, &Values::read(alloc, &table::CHECK, words)?),
        "bound" => bound(alloc, &Values::read(alloc, &table::BOUND, words)?),
        "calls" => calls(alloc, &Values::read(alloc, &table::CALLS, words)?),
        "derive" => derive(alloc, &Values::read(alloc, &table::DERIVE, words)?),
        "outline" => outline(alloc, &Values::read(alloc, &table::OUTLINE, words)?),
        "run" => run(alloc, &Values::read(alloc, &table::RUN, words)?),
        "exec" => exec(alloc, &Values::read(alloc, &table::EXEC, words)?),
        "sample" => sample(alloc, &Values::read(alloc, &table::SAMPLE, words)?),
        "elf" => elf(alloc, &Values::read(alloc, &table::ELF, words)?),
        "unelf" => unelf(alloc, &Values::read(alloc, &table::UNELF, words)?),
        _ => Err(CliFault::Usage),
    }
}

/// The command that the words mean, the program's own name not among them.
///
/// The first word is the command's name. Behind it stand its operand, a file or a number, and its
/// options, in any order, each as `--opt=VALUE` or as `--opt` and the word VALUE. A word for an
/// operand or a VALUE isn't empty and doesn't begin with `-`; a VALUE behind `=` isn't empty. Each
/// option stands at most once.
///
/// The commands and their options, the required ones with a star:
///
/// - `build SRC`: `--proof`, `--out`*
/// - `check SRC`: `--proof`
/// - `bound SRC`: `--proof`, `--args`
/// - `calls SRC`: `--proof`*, `--args`
/// - `derive SRC`: `--out`*
/// - `outline SRC`: none
/// - `run IMG`: `--stack`*, `--args`, `--input`, `--steps`
/// - `exec SRC`: `--proof`, `--args`, `--input`, `--steps`
/// - `sample N`: `--out`
/// - `elf IMG`: `--out`*
/// - `unelf FILE`: `--out`*
///
/// `--stack` and N have 1 to 19 decimal digits, and N is 1 to `MOST_SAMPLE_FUNCTIONS`. `--steps` has
/// 1 to 10 digits and is 1 to `MOST_STEPS`, and `DEFAULT_STEPS` where it isn't given. `--args` has 1
/// to `MOST_ARGUMENTS` numbers with commas between, each an optional `-` and 1 to 10 digits.
///
/// Anything else is Usage, the empty list, `-`, `--` and `--help` among it. NoMemory comes for want
/// of memory alone.
#[tactic(auto, unfolding(crate::specs::Commands::meaning))]
pub fn read_words(alloc: Global, words: &[String]) -> Result<Command, CliFault>
    ensures { Reads (texts_of words.now) result }
{
    match words {
        [] => Err(CliFault::Usage),
        [name, rest @ ..] => named(alloc, name.as_str(), rest),
    }
}
