//! Stacks kept in a `Vec`, the front being the end of the `Vec`.
ghost use Rattle.std.specs.Prelude.{◌≡◌, ◌∷◌, ◌++◌, OnOk, reverse, replicate, take, drop};
ghost use Rattle.qs_assert.specs.Reading.{others};
ghost use Rattle.qs_assert.specs.Stacks.{first_or, TakesFront};

use qs_base::NoMemory;

/// Puts an item in front.
pub fn put<T: Drop>(stack: &mut Vec<T>, item: T) -> Result<(), NoMemory>
    ensures { OnOk result (reverse stack.new.items ≡ item ∷ reverse stack.old.items) }
{
    stack.push(item)?;
    Ok(())
}

/// Puts an item in front so many times.
pub fn put_all<T: Copy>(stack: &mut Vec<T>, item: T, n: usize) -> Result<(), NoMemory>
    ensures { OnOk result (reverse stack.new.items ≡ replicate n item ++ reverse stack.old.items) }
{
    for _index in 0..n {
        put(stack, item)?;
    }
    Ok(())
}

/// Takes the first item off, unless there is none.
pub fn next<T>(stack: &mut Vec<T>) -> Option<T>
    ensures { TakesFront stack.old.items stack.new.items result }
{
    stack.pop()
}

/// Takes the first item off, or `otherwise` where there is none.
pub fn take_first<T: Drop>(stack: &mut Vec<T>, otherwise: T) -> T
    ensures value { result ≡ first_or otherwise (reverse stack.old.items) }
    ensures left { reverse stack.new.items ≡ others (reverse stack.old.items) }
{
    match stack.pop() {
        Some(item) => item,
        None => otherwise,
    }
}

/// The first items, the last of them first.
pub fn front<T>(stack: &[T], count: usize) -> &[T]
    ensures { reverse result.now ≡ take count (reverse stack.now) }
{
    stack.split_at(stack.len().saturating_sub(count)).1
}

/// Takes the first items off.
pub fn cut<T: Drop>(stack: &mut Vec<T>, count: usize)
    ensures { reverse stack.new.items ≡ drop count (reverse stack.old.items) }
{
    let items: &[T] = stack;
    let kept = items.len().saturating_sub(count);
    stack.truncate(kept);
}
