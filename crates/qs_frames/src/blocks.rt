// Blocks that lie one after the other, each at its least multiple of 4.
ghost use Rattle.std.specs.Prelude.{◌≡◌, ◌↔◌, ◌+◌, ◌^◌, ◌≤◌, ◌<◌, IfOk, IsSome, IfSome};
ghost use Rattle.qs_frames.specs.Layout as spec;
ghost use Rattle.qs_frames.specs.Starts.{AreStarts};

use qs_base::NoMemory;
use std::alloc::Global;

/// The bytes of the largest frame, of its blocks and of the blocks of a unit's data, at most.
pub const LARGEST_FRAME: u32 = 1 << 28;

#[tactic(auto, unfolding(crate::specs::Layout::rounded))]
fn rounded(size: u32) -> u32
    requires { size + 3 < 2 ^ 32 }
    ensures { result ≡ spec.rounded size }
{
    (size + 3) / 4 * 4
}

/// The bytes of blocks of these sizes.
pub fn total(sizes: &[u32]) -> u32
    requires { spec.total sizes.now ≤ spec.largest_frame }
    ensures { result ≡ spec.total sizes.now }
{
    let mut sum = 0;
    for size in sizes {
        sum += rounded(*size);
    }
    sum
}

/// The bytes of blocks of these sizes, where they are at most as many as those of the largest frame.
pub fn total_within(sizes: &[u32]) -> Option<u32>
    ensures fits { IsSome result ↔ (spec.total sizes.now ≤ spec.largest_frame) }
    ensures total { IfSome result (λ n. n ≡ spec.total sizes.now) }
{
    let mut sum = 0;
    for size in sizes {
        if *size > LARGEST_FRAME {
            return None;
        }
        sum += rounded(*size);
        if sum > LARGEST_FRAME {
            return None;
        }
    }
    Some(sum)
}

/// Where blocks begin.
#[derive(Drop)]
pub struct Starts {
    /// by the blocks' numbers
    pub at: Vec<u32>,
    /// where the last block ends, rounded up to a multiple of 4
    pub end: u32,
}

impl Starts {
    ghost use Rattle.qs_frames.specs.Starts.{start_of};

    /// Where the block with this number begins. No block has a number from the length of the list
    /// on.
    pub fn start(&self, block: u32) -> u32
        ensures { result ≡ start_of self.now block }
    {
        match self.at.get(block as usize) {
            None => self.end,
            Some(at) => *at,
        }
    }
}

/// Where blocks of these sizes begin, the first one here.
pub fn laid_from(alloc: Global, first: u32, sizes: &[u32]) -> Result<Starts, NoMemory>
    requires { first + spec.total sizes.now ≤ 2 ^ 29 }
    ensures { IfOk result (λ starts. AreStarts first sizes.now starts) }
{
    let mut at = Vec::new(alloc);
    let mut end = first;
    for size in sizes {
        at.push(end)?;
        end += rounded(*size);
    }
    Ok(Starts { at, end })
}
