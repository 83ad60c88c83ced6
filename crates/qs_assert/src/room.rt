// The room of a call for assertions. A precondition can double at each conditional and at each
// caller, so that a short source would take any memory.
ghost use Rattle.std.specs.Prelude.{◌≡◌, IfOk};

use crate::Assertion;
use qs_base::NoMemory;

// The most nodes of one assertion that is made.
const MOST_OF_ONE: usize = 1 << 22;
// The most nodes of all that are kept to the end of a call: they are in memory together.
const MOST_KEPT: usize = 1 << 24;
// The most nodes of all that are made in a call, most of them only for a while: they take time.
const MOST_MADE: usize = 1 << 26;

/// How many nodes the assertions of a call may still have.
#[derive(Drop)]
pub struct Room {
    nodes: usize,
}

impl Room {
    /// The room for what is kept to the end of a call.
    pub fn to_keep() -> Room {
        Room { nodes: MOST_KEPT }
    }

    /// The room for all that is made in a call.
    pub fn to_make() -> Room {
        Room { nodes: MOST_MADE }
    }

    /// Takes room for an assertion of so many nodes. Where there is none, no memory is found.
    pub fn take(&mut self, nodes: usize) -> Result<(), NoMemory> {
        if nodes > MOST_OF_ONE || nodes > self.nodes {
            return Err(NoMemory);
        }
        self.nodes -= nodes;
        Ok(())
    }
}

/// The assertion, where there is room for its nodes.
pub fn within(room: &mut Room, a: Assertion) -> Result<Assertion, NoMemory>
    ensures { IfOk result (λ b. b ≡ a) }
{
    room.take(a.nodes().len())?;
    Ok(a)
}
