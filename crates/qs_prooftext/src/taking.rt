// Trees taken off a stack, its front being the Vec's end.
ghost use Rattle.std.specs.Prelude.{◌≡◌};
ghost use Rattle.qs_assert.specs.Reading.{others};
ghost use Rattle.qs_assert.specs.Stacks.{first_or};
ghost use Rattle.qs_prooftext.specs.Planting.{stacked, Takes, GivesFirst, GivesFirsts};

use qs_assert::stack;
use qs_base::NoMemory;
use std::alloc::Global;

/// What is a part of another of its kind.
pub trait Subtree: Drop {
    ghost Tree: { Type 0 };

    ghost tree: { Self → Tree };

    ghost blank: { Tree };

    /// What stands for a part that is missing.
    fn missing() -> Self
        ensures { tree result ≡ blank };
}

/// Takes the first part off.
pub fn take_first<T: Subtree>(stack: &mut Vec<T>) -> T
    ensures first { T.tree result ≡ first_or T.blank (stacked T.tree stack.old) }
    ensures left { stacked T.tree stack.new ≡ others (stacked T.tree stack.old) }
{
    stack::take_first(stack, T::missing())
}

/// Takes so many parts off.
pub fn take_all<T: Subtree>(
    alloc: Global,
    stack: &mut Vec<T>,
    count: usize,
) -> Result<Vec<T>, NoMemory>
    ensures first { GivesFirsts T.tree T.blank count stack.old result }
    ensures left { Takes T.tree count stack.old stack.new result }
{
    let mut parts = Vec::new(alloc);
    let mut left = count;
    'parts: while left > 0 {
        parts.push(take_first(stack))?;
        left -= 1;
    }
    Ok(parts)
}

/// Takes the first part off, boxed.
pub fn take_boxed<T: Subtree>(alloc: Global, stack: &mut Vec<T>) -> Result<Box<T>, NoMemory>
    ensures first { GivesFirst T.tree T.blank stack.old result }
    ensures left { Takes T.tree 1 stack.old stack.new result }
{
    let part = take_first(stack);
    Ok(Box::new(alloc, part)?)
}
