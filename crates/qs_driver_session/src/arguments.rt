// The arguments of main as the words of the machine.
ghost use Rattle.std.specs.Prelude.{◌≡◌, ◌<◌, ◌≤◌};
ghost use Rattle.qs_base.specs.Parameters.{most_main_parameters};
ghost use Rattle.qs_base.specs.Words.{wrap};
ghost use Rattle.qs_machine.specs.Arguments.{fits_parameter};
ghost use Rattle.qs_driver_session.specs.Arguments.{image_with, FindsWords};

use crate::{Status, WordsFault};
use qs_image::{Image, ImageView};
use std::alloc::Global;

/// What main takes: how many parameters, and which of them are `unsigned`, as an image tells it.
#[derive(Clone, Copy)]
pub struct Parameters {
    pub count: u32,
    pub unsigned_set: u32,
}

// Whether the number is a value of parameter i: of `unsigned` where its bit is set, else of `int`.
fn fits_parameter(parameters: Parameters, i: usize, number: i64) -> bool
    requires { i < 32 }
    ensures { result ≡ fits_parameter (image_with parameters) i number }
{
    if parameters.unsigned_set >> i & 1 == 1 {
        0 <= number && number <= i64::from(u32::MAX)
    } else {
        i64::from(i32::MIN) <= number && number <= i64::from(i32::MAX)
    }
}

// The word of a number modulo 2^32.
fn word_of(number: i64) -> u32
    ensures { result ≡ wrap number }
{
    number.rem_euclid(1 << 32) as u32
}

// The words of the arguments, if there are as many as main has parameters and each is a value of
// its parameter.
fn words_for(alloc: Global, parameters: Parameters, args: &[i64]) -> Result<Vec<u32>, Status>
    requires { parameters.count ≤ most_main_parameters }
    ensures { FindsWords (image_with parameters) args.now result }
{
    let expected = parameters.count;
    if args.len() != expected as usize {
        return Err(Status::Words(WordsFault::ArgCount {
            expected,
            given: args.len(),
        }));
    }
    let mut words = Vec::new(alloc);
    for (i, number) in args.iter().enumerate() {
        let number = *number;
        if !fits_parameter(parameters, i, number) {
            return Err(Status::Words(WordsFault::ArgRange(i)));
        }
        words.push(word_of(number))?;
    }
    Ok(words)
}

/// The words of the arguments for an image that was read.
pub fn argument_words(
    alloc: Global,
    image: &ImageView<'_>,
    args: &[i64],
) -> Result<Vec<u32>, Status>
    ensures { FindsWords image.now args.now result }
{
    let parameters = Parameters {
        count: image.parameters(),
        unsigned_set: image.unsigned_set(),
    };
    words_for(alloc, parameters, args)
}

/// The words of the arguments for an image that was made. Or the status at which there are none:
/// there are more or fewer arguments than parameters, one is no value of its parameter's type, or no
/// memory was found.
pub fn image_words(alloc: Global, image: &Image, args: &[i64]) -> Result<Vec<u32>, Status>
    ensures { FindsWords image.now args.now result }
{
    let parameters = Parameters {
        count: image.parameters,
        unsigned_set: image.unsigned_set,
    };
    words_for(alloc, parameters, args)
}
