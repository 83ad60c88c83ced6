// What the parser's functions on parts are given.
ghost use Rattle.std.specs.Prelude.{◌≡◌, ◌<◌, ◌-◌};

use std::alloc::Global;

/// What the reading of a part is given: where memory comes from, and how many levels are left for
/// it, from 0 to the limit of the height.
#[derive(Clone, Copy)]
pub struct Context {
    /// Where memory comes from.
    pub alloc: Global,
    /// How many levels are left.
    pub room: u8,
}

impl Context {
    /// What a part is given that is read one level further in.
    pub fn inner(self) -> Context
        requires { 0 < self.room }
        ensures same { result.alloc ≡ self.alloc }
        ensures less { result.room ≡ self.room - 1 }
    {
        Context {
            alloc: self.alloc,
            room: self.room - 1,
        }
    }
}
