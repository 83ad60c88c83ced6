// Functions of a program by their numbers.
ghost use Rattle.std.specs.Prelude.{◌≡◌, IfOk};

use crate::counts::count;
use crate::memory::NoMemory;

/// The number of a function with a body, in order of definition, from 0.
#[derive(Clone, Copy, PartialEq, Eq, Debug)]
pub struct FnId(pub u32);

impl FnId {
    /// The function at this place in the order; a number that can't be kept is want of memory.
    pub fn at(place: usize) -> Result<FnId, NoMemory>
        ensures { IfOk result (λ f. f.0 ≡ place) }
    {
        Ok(FnId(count(place)?))
    }
}
