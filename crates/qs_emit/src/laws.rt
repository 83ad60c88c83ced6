// The laws of emitted code. Each is the contract of an empty function.
ghost use Rattle.qs_emit.specs.Emitted.{ImagesFollow};
ghost use Rattle.qs_emit.specs.Entries.{EmittedCodeFollows};
ghost use Rattle.qs_emit.specs.Laws.{BlocksApartHaveOwners, CodeIsShort, LyingBlocksDontMeet};
ghost use Rattle.qs_emit.specs.Laws.{WatchingLeads, WatchingRefines, WatchingSteps};
ghost use Rattle.qs_emit.specs.Started.{EmittedCodeFollowsFromStart};

/// The machine that is watched is the machine, where it doesn't stop and nobody changes anything:
/// they come to the same outcome, and their least x2 is the same.
pub fn watching_refines()
    ensures { WatchingRefines }
{}

/// A step that is watched is one of the machine, by an instruction that keeps to the rules, and
/// leaves x2 a multiple of 16 and no higher than at the entry; then others change what isn't kept.
pub fn watching_steps()
    ensures { WatchingSteps }
{}

/// The states that are watched are the machine's, where nobody changes anything.
pub fn watching_leads()
    ensures { WatchingLeads }
{}

/// Emitted code does what its linear code does, from every entry of every function, on every stack
/// that has the weight of the run; while the run is defined no instruction breaks a rule of the
/// machine that is watched.
pub fn emitted_code_follows()
    ensures { EmittedCodeFollows }
{}

/// From the start of an image the machine that is watched goes on, exits and stops as main does,
/// with the output, the status and the least stack of the run.
pub fn emitted_code_follows_from_start()
    ensures { EmittedCodeFollowsFromStart }
{}

/// Live blocks in ranges that don't meet have owners of their bytes, which the entry of a function
/// asks for.
pub fn blocks_apart_have_owners()
    ensures { BlocksApartHaveOwners }
{}

/// Live blocks that lie in the machine's memory are in ranges that don't meet.
pub fn lying_blocks_dont_meet()
    ensures { LyingBlocksDontMeet }
{}

/// An image that has a unit's code, records and data does what the unit does. Every function of it,
/// from the address in its record, follows its linear code on every stack that has the run's weight
/// by the costs of the records; while the run goes on, the blocks that it has lie in the machine's
/// data and stack. The machine starts with the memory to start from in its data. From the start the
/// machine and main's run agree both ways, within the same steps, and the least x2 is the stack's
/// top less the weight.
pub fn images_follow()
    ensures { ImagesFollow }
{}

/// The code of an image has at most three words, and those of each function: so it has room where
/// they do.
pub fn code_is_short()
    ensures { CodeIsShort }
{}
