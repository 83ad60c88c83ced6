// Truth values of conditions. None stands for a condition with a part that is wide.
ghost use Rattle.std.specs.Prelude.{◌≡◌, ◌&&◌, ◌||◌, reverse};
ghost use Rattle.qs_assert.specs.Comparing.{relation_of};
ghost use Rattle.qs_assert.specs.Stacks as stacks;

/// A relation of two numbers.
#[derive(Clone, Copy)]
pub enum Relation {
    AtMost,
    Less,
    Equal,
    Different,
}

fn relates(relation: Relation, x: i128, y: i128) -> bool
    ensures { result ≡ relation_of relation x y }
{
    match relation {
        Relation::AtMost => x <= y,
        Relation::Less => x < y,
        Relation::Equal => x == y,
        Relation::Different => !(x == y),
    }
}

/// Whether the numbers are so related.
pub fn compared(relation: Relation, a: Option<i128>, b: Option<i128>) -> Option<bool>
    ensures { result ≡ stacks.compared (relation_of relation) a b }
{
    Some(relates(relation, a?, b?))
}

/// Whether the condition does not hold.
pub fn negated(a: Option<bool>) -> Option<bool>
    ensures { result ≡ stacks.negated a }
{
    Some(!a?)
}

fn with_all(part: Option<bool>, whole: bool) -> bool
    ensures { result ≡ stacks.joins (λ a b. a && b) part whole }
{
    match part {
        Some(holds) => holds && whole,
        None => whole,
    }
}

fn with_some(part: Option<bool>, whole: bool) -> bool
    ensures { result ≡ stacks.joins (λ a b. a || b) part whole }
{
    match part {
        Some(holds) => holds || whole,
        None => whole,
    }
}

/// Whether all hold, the conditions being given the last first.
pub fn all(parts: &[Option<bool>]) -> Option<bool>
    ensures { result ≡ stacks.all_known (reverse parts.now) }
{
    let mut whole = true;
    let mut wide = false;
    for part in parts {
        whole = with_all(*part, whole);
        wide = part.is_none() || wide;
    }
    if wide { None } else { Some(whole) }
}

/// Whether one holds, the conditions being given the last first.
pub fn some(parts: &[Option<bool>]) -> Option<bool>
    ensures { result ≡ stacks.some_known (reverse parts.now) }
{
    let mut whole = false;
    let mut wide = false;
    for part in parts {
        whole = with_some(*part, whole);
        wide = part.is_none() || wide;
    }
    if wide { None } else { Some(whole) }
}
