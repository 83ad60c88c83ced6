// The conditions and the count of polynomials that hypotheses push.
ghost use Rattle.std.specs.Prelude.{◌≡◌, ◌≤◌, ◌<◌, ◌*◌, ◌^◌, ◌++◌, length, IfOk};
ghost use Rattle.qs_entail.specs.Flattening.{flat_list, polynomial_counts};
ghost use Rattle.qs_entail.specs.Parts.{outline_view};
ghost use Rattle.qs_entail.specs.Verdicts.{outline_list, outlined_first};

use crate::flattening::{polynomial_count, put_flat};
use qs_assert::Cond;
use qs_base::NoMemory;
use std::alloc::Global;

/// What hypotheses push, without the polynomials.
#[derive(Drop)]
pub struct Outline {
    /// The conditions that are pushed.
    pub conditions: Vec<Cond>,
    /// The count of polynomials, with the first, which is 1.
    pub count: usize,
}

fn put_flat_list(alloc: Global, hypotheses: &[Cond], list: &mut Vec<Cond>) -> Result<(), NoMemory>
    ensures { IfOk result (λ _. list.new.items ≡ list.old.items ++ flat_list hypotheses.now) }
{
    for c in hypotheses {
        put_flat(alloc, &c.view(), false, list)?;
    }
    Ok(())
}

fn count_polynomials(conditions: &[Cond]) -> usize
    requires { length conditions.now < 2 ^ 63 }
    ensures value { result ≡ polynomial_counts conditions.now }
    ensures within { result ≤ 2 * length conditions.now }
{
    let mut count = 0;
    for c in conditions {
        count += polynomial_count(c);
    }
    count
}

/// The conditions and the count of polynomials that the hypotheses push.
pub fn outlined(alloc: Global, hypotheses: &[Cond]) -> Result<Outline, NoMemory>
    ensures { IfOk result (λ o. outline_view o ≡ outline_list hypotheses.now outlined_first) }
{
    let mut conditions = Vec::new(alloc);
    put_flat_list(alloc, hypotheses, &mut conditions)?;
    let count = 1 + count_polynomials(&conditions);
    Ok(Outline { conditions, count })
}
