// The laws of frames. Each is the contract of an empty function.
ghost use Rattle.qs_frames.specs.Laws.{FramesAreLaidOut, NoMoreIsKeptThanValues};

/// A frame's size, and that its parts lie in it, at multiples of 4, and don't meet.
pub fn frames_are_laid_out()
    ensures { FramesAreLaidOut }
{}

/// In places that are accepted a frame keeps at most the function's values.
pub fn no_more_is_kept_than_values()
    ensures { NoMoreIsKeptThanValues }
{}
