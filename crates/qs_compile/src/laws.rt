// The laws of images of cores and of sources. Each is the contract of an empty function.
ghost use Rattle.qs_compile.specs.Compiled.{BuiltImagesAreCompiled, UnitsPassNoSize};
ghost use Rattle.qs_compile.specs.Follows.{AccountsGoThrough, AgreementGoesThrough};
ghost use Rattle.qs_compile.specs.Laws.{ImagesDoAsCore};
ghost use Rattle.qs_compile.specs.Names.{NamesAreOfTheText};
ghost use Rattle.qs_compile.specs.Small.{SmallUnitsPassNoSize};

/// A machine that does what some code does also does what a source does whose runs that code
/// follows.
pub fn agreement_goes_through<End>()
    ensures { AgreementGoesThrough End }
{}

/// And it takes as much of the stack.
pub fn accounts_go_through<End>()
    ensures { AccountsGoThrough End }
{}

/// An image that is built from a unit of core does what the unit does: on every stack that has the
/// weight of main's runs by the costs of its records the machine and main's run agree both ways,
/// within the same steps, and the least x2 is the stack's top less the weight. And each of its
/// functions does what its linear code does.
pub fn images_do_as_core()
    ensures { ImagesDoAsCore }
{}

/// A unit of core that is small enough has an image, where memory suffices: at most 512 functions
/// whose names have at most 1,048,576 bytes, 16 parameters, 8 of main, 2^27 bytes of blocks, 2^24 values, of
/// which those for parts of expressions lie in reach, less than 2^18 words by the count of core,
/// and 16,777,216 bytes of data.
pub fn small_units_pass_no_size()
    ensures { SmallUnitsPassNoSize }
{}

/// The names of a unit's functions with a body have together at most as many bytes as a text that
/// the unit is read from: each is a token of its own.
pub fn names_are_of_the_text()
    ensures { NamesAreOfTheText }
{}

/// A unit that is read, well typed and within the limits, whose functions have names of at most
/// 1,048,576 bytes together, passes no size of images: where it has none, memory was wanting.
pub fn units_pass_no_size()
    ensures { UnitsPassNoSize }
{}

/// An image that is built from the core of such a unit, and does what the core does where main
/// returns, is the image of the unit: it does what the source does, and the cost of each function
/// is within its cap.
pub fn built_images_are_compiled()
    ensures { BuiltImagesAreCompiled }
{}
