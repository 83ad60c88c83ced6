// Counts of 32 bits. No memory holds more things than they count, so one that would be greater is
// told as want of memory.
ghost use Rattle.std.specs.Prelude.{◌≡◌, ◌+◌, ◌*◌, IfOk};

use crate::memory::NoMemory;

/// The same count.
pub fn count(n: usize) -> Result<u32, NoMemory>
    ensures { IfOk result (λ k. k ≡ n) }
{
    match u32::try_from(n) {
        Ok(k) => Ok(k),
        Err(_) => Err(NoMemory),
    }
}

/// The sum of two counts.
pub fn sum(a: u32, b: u32) -> Result<u32, NoMemory>
    ensures { IfOk result (λ n. n ≡ a + b) }
{
    a.checked_add(b).ok_or(NoMemory)
}

/// The product of two counts.
pub fn product(a: u32, b: u32) -> Result<u32, NoMemory>
    ensures { IfOk result (λ n. n ≡ a * b) }
{
    a.checked_mul(b).ok_or(NoMemory)
}
