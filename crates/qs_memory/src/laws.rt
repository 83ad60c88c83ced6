// The laws of memories and values. Each is the contract of an empty function.
ghost use Rattle.qs_memory.specs.Laws.{LoadAfterStore, LoadElsewhere, StoresCommute, StepsAreDefined, WritesAreExact};
ghost use Rattle.qs_memory.specs.Laws.{LoadsAfterWrites, PointersAreDefined};
ghost use Rattle.qs_memory.specs.Laws.{BlocksAreFresh, BlocksAreReleased, MemoryGoesOn, SoundnessIsKept};
ghost use Rattle.qs_memory.specs.Laws.{ValuesAreSound, ValuesHaveTypes};

/// A load gives what was stored (C11 6.2.4p2).
pub fn load_after_store()
    ensures { LoadAfterStore }
{}

/// A store elsewhere changes no load.
pub fn load_elsewhere()
    ensures { LoadElsewhere }
{}

/// Stores that are apart give the same memory in either order, and are defined in both or in none.
pub fn stores_commute()
    ensures { StoresCommute }
{}

/// When a load, a store, a copy and a fill are defined: in a live block, in range, aligned, writable
/// where they write, on cells or a value of the type, and copies where nothing overlaps.
pub fn steps_are_defined()
    ensures { StepsAreDefined }
{}

/// What a store, a copy and a fill write, cell by cell, and that all else stays as it was.
pub fn writes_are_exact()
    ensures { WritesAreExact }
{}

/// What is loaded after a copy, and that a copy or a fill elsewhere changes no load.
pub fn loads_after_writes()
    ensures { LoadsAfterWrites }
{}

/// When a pointer is moved, ordered with another and compared for equality (C11 6.5.6p8, 6.5.8p5,
/// 6.5.9p6), and that equal ones are the same.
pub fn pointers_are_defined()
    ensures { PointersAreDefined }
{}

/// Blocks that are made have numbers that no block had, and are unset (C11 6.2.4p6).
pub fn blocks_are_fresh()
    ensures { BlocksAreFresh }
{}

/// Released blocks can't be reached (C11 6.2.4p2).
pub fn blocks_are_released()
    ensures { BlocksAreReleased }
{}

/// Each step leaves a memory that comes after: no block changes its size, becomes writable, or lives
/// again.
pub fn memory_goes_on()
    ensures { MemoryGoesOn }
{}

/// Bytes stay below 256, and pointers into live blocks stay in them or just past their end.
pub fn soundness_is_kept()
    ensures { SoundnessIsKept }
{}

/// Values that are loaded, converted or computed, and pointers to members, are sound.
pub fn values_are_sound()
    ensures { ValuesAreSound }
{}

/// Values that are loaded, converted or computed are of their types: a `char` is below 256.
pub fn values_have_types()
    ensures { ValuesHaveTypes }
{}
