// The words of each command, as the command takes them.
ghost use Rattle.std.specs.Prelude.{◌≡◌};
ghost use Rattle.qs_cli.specs.Reading.{text_of};
ghost use Rattle.qs_driver_session.specs.Names.{name_in};
ghost use Rattle.qs_driver_session.specs.Starting as run;
ghost use Rattle.qs_driver.specs.Certified as certified;
ghost use Rattle.qs_driver.specs.Orders.{to_bound, to_build, to_check, to_derive, to_exec};
ghost use Rattle.qs_driver.specs.Orders.{to_outline, to_run, to_sample};
ghost use Rattle.qs_driver.specs.commands.Bound as bound;
ghost use Rattle.qs_driver.specs.commands.Build as build;
ghost use Rattle.qs_driver.specs.commands.Derive as derive;
ghost use Rattle.qs_driver.specs.commands.Exec as exec;
ghost use Rattle.qs_driver.specs.commands.Outline as outline;
ghost use Rattle.qs_driver.specs.commands.Sample as sample;

use crate::certified::CertifyOrder;
use crate::commands::bound::BoundOrder;
use crate::commands::build::BuildOrder;
use crate::commands::derive::DeriveOrder;
use crate::commands::exec::ExecOrder;
use crate::commands::outline::OutlineOrder;
use crate::commands::sample::SampleOrder;
use qs_driver_session::RunOrder;

fn name_in(name: &Option<String>) -> Option<&str>
    ensures { name_in result ≡ text_of name.now }
{
    name.as_ref().map(|name| name.as_str())
}

/// What `build` is asked: the names of the source, the proof file and the image.
pub fn to_build<'a>(
    source: &'a String,
    proof: &'a Option<String>,
    out: &'a String,
) -> BuildOrder<'a>
    ensures { build.words_in result ≡ to_build source.now proof.now out.now }
{
    BuildOrder {
        source: source.as_str(),
        proof: name_in(proof),
        out: out.as_str(),
    }
}

/// What `check` is asked: the names of the source and the proof file.
pub fn to_check<'a>(source: &'a String, proof: &'a Option<String>) -> CertifyOrder<'a>
    ensures { certified.words_in result ≡ to_check source.now proof.now }
{
    CertifyOrder {
        source: source.as_str(),
        proof: name_in(proof),
    }
}

/// What `bound` is asked: the names of the source and the proof file, and main's arguments.
pub fn to_bound<'a>(
    source: &'a String,
    proof: &'a Option<String>,
    args: &'a Vec<i64>,
) -> BoundOrder<'a>
    ensures { bound.words_in result ≡ to_bound source.now proof.now args.now }
{
    BoundOrder {
        source: source.as_str(),
        proof: name_in(proof),
        args: args.as_slice(),
    }
}

/// What `derive` is asked: the names of the source and of the proof file that it writes.
pub fn to_derive<'a>(source: &'a String, out: &'a String) -> DeriveOrder<'a>
    ensures { derive.words_in result ≡ to_derive source.now out.now }
{
    DeriveOrder {
        source: source.as_str(),
        out: out.as_str(),
    }
}

/// What `outline` is asked: the name of the source.
pub fn to_outline(source: &String) -> OutlineOrder<'_>
    ensures { outline.words_in result ≡ to_outline source.now }
{
    OutlineOrder {
        source: source.as_str(),
    }
}

/// What `run` is asked: the names of the image and the input, the stack in bytes, the arguments,
/// and the most instructions to run.
pub fn to_run<'a>(
    image: &'a String,
    stack: u64,
    args: &'a Vec<i64>,
    input: &'a Option<String>,
    steps: u64,
) -> RunOrder<'a>
    ensures { run.words_in result ≡ to_run image.now stack args.now input.now steps }
{
    RunOrder {
        image: image.as_str(),
        stack,
        args: args.as_slice(),
        input: name_in(input),
        steps,
    }
}

/// What `exec` is asked: the names of the source, the proof file and the input, main's arguments,
/// and the most instructions to run.
pub fn to_exec<'a>(
    source: &'a String,
    proof: &'a Option<String>,
    args: &'a Vec<i64>,
    input: &'a Option<String>,
    steps: u64,
) -> ExecOrder<'a>
    ensures { exec.words_in result ≡ to_exec source.now proof.now args.now input.now steps }
{
    ExecOrder {
        source: source.as_str(),
        proof: name_in(proof),
        args: args.as_slice(),
        input: name_in(input),
        steps,
    }
}

/// What `sample` is asked: the count of functions, and the name under which the source is written,
/// if it is.
pub fn to_sample(count: u64, out: &Option<String>) -> SampleOrder<'_>
    ensures { sample.words_in result ≡ to_sample count out.now }
{
    SampleOrder {
        count,
        out: name_in(out),
    }
}
