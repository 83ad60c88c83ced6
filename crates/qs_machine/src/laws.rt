// The laws of a step. Each is the contract of an empty function.
ghost use Rattle.qs_machine.specs.Laws.{StepsKeepStates};

/// A step keeps pc and the registers words, pc a multiple of 4, and memory and input bytes; the
/// output only grows, and of the input a front is taken.
pub fn steps_keep_states()
    ensures { StepsKeepStates }
{}
