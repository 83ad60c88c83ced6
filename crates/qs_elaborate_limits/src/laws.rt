// The laws of limits. Each is the contract of an empty function, and speaks of the core of a unit
// that is read from tokens, is well typed and is within the limits.
ghost use Rattle.qs_elaborate_limits.specs.Laws.{FunctionsAreFew, ParametersAreFew, MainParametersAreFew, ArgumentsAreFew};
ghost use Rattle.qs_elaborate_limits.specs.Laws.{CodeIsSmall, HeldValuesAreFew, ValuesAreLimited};
ghost use Rattle.qs_elaborate_limits.specs.Laws.{PlacedBytesAreFew, StatementsNestLittle, DataBytesAreFew};
ghost use Rattle.qs_elaborate_limits.specs.Laws.{MainReturns, CapsAreKept};

/// There are at most 512 functions.
pub fn functions_are_few()
    ensures { FunctionsAreFew }
{}

/// A function has at most 16 parameters.
pub fn parameters_are_few()
    ensures { ParametersAreFew }
{}

/// `main` has at most 8 parameters.
pub fn main_parameters_are_few()
    ensures { MainParametersAreFew }
{}

/// A call has at most 16 arguments.
pub fn arguments_are_few()
    ensures { ArgumentsAreFew }
{}

/// The bound on the words of the machine code is at most 256,384: 24 for each of 10,000 nodes, and
/// 32 for each of 512 functions. So it is below 2^18.
pub fn code_is_small()
    ensures { CodeIsSmall }
{}

/// While the expressions of a body are computed, at most 144 values are held at once: 128, the
/// greatest height of a reading, and 16, the most parameters of a function.
pub fn held_values_are_few()
    ensures { HeldValuesAreFew }
{}

/// Where a run of `main` ends, `main` has returned a value.
pub fn main_returns()
    ensures { MainReturns }
{}

/// A function needs at most 30,000 values: three for each of 10,000 nodes. So its frame is far
/// below 2^28 bytes.
pub fn values_are_limited()
    ensures { ValuesAreLimited }
{}

/// The blocks of a call take at most 1,048,576 bytes, each in whole words.
pub fn placed_bytes_are_few()
    ensures { PlacedBytesAreFew }
{}

/// Statements nest at most 512 deep: four deep for each of 128 levels of a reading.
pub fn statements_nest_little()
    ensures { StatementsNestLittle }
{}

/// The blocks of data end at most 16,777,216 bytes behind the beginning of the first, each at a
/// multiple of 4. So none is larger.
pub fn data_bytes_are_few()
    ensures { DataBytesAreFew }
{}

/// A function needs at most the cap of its source: the least multiple of 16 bytes that has room for
/// a return address, its placed locals and parameters, a word for each variable, two for each
/// expression in its body, and one for each argument past the eighth of one call in it.
pub fn caps_are_kept()
    ensures { CapsAreKept }
{}
