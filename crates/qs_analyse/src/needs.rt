// What calls need.
ghost use Rattle.std.specs.Prelude.{◌≡◌, ◌++◌, ◌∷◌, [], IfOk, OnOk, length};
ghost use Rattle.qs_analyse.specs.Needs.{call_of, greatest_part};

use qs_assert::Assertion;
use qs_base::{FnId, NoMemory};
use std::alloc::Global;

/// What a call of a function needs: its cost, and this.
pub fn call_part(alloc: Global, g: FnId, need: Assertion) -> Result<Assertion, NoMemory>
    ensures { IfOk result (λ a. a ≡ call_of g.0 need) }
{
    let cost = Assertion::cost(alloc, g)?;
    Assertion::total(alloc, &[cost, need])
}

/// Puts a part behind the others.
pub fn put_part(parts: &mut Vec<Assertion>, part: Assertion) -> Result<(), NoMemory>
    ensures { OnOk result (parts.new.items ≡ parts.old.items ++ part ∷ []) }
{
    parts.push(part)?;
    Ok(())
}

/// What the greatest of some calls needs.
pub fn greatest(alloc: Global, mut parts: Vec<Assertion>) -> Result<Assertion, NoMemory>
    ensures { IfOk result (λ a. a ≡ greatest_part parts.items) }
{
    if parts.len() != 1 {
        return greatest_of_many(alloc, &parts);
    }
    match parts.pop() {
        Some(part) => Ok(part),
        None => Assertion::natural(alloc, 0),
    }
}

fn greatest_of_many(alloc: Global, parts: &[Assertion]) -> Result<Assertion, NoMemory>
    requires { length parts.now ≡ 1 → ⊥ }
    ensures { IfOk result (λ a. a ≡ greatest_part parts.now) }
{
    if parts.is_empty() {
        Assertion::natural(alloc, 0)
    } else {
        Assertion::greatest(alloc, parts)
    }
}
