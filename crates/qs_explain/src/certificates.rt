// The walk from the root of a certificate to a node, with what is there and needed on the way.
use crate::page::Page;
use qs_assert::{Assertion, AssertionView, CondView};
use qs_base::NoMemory;
use qs_entail::{
    Certificate, Guarded, Known, Stop, added, both_unfolded, branch, guarded_of, picked, push,
    summands,
};
use qs_poly::Poly;
use std::alloc::Global;

/// What is known at the root: that 1 is at least 0.
pub fn known_at_root(alloc: Global) -> Result<Known, NoMemory> {
    let mut polynomials = Vec::new(alloc);
    let unit = Poly::natural(alloc, 1).map_err(|_fault| NoMemory)?;
    polynomials.push(unit)?;
    Ok(Known {
        conditions: Vec::new(alloc),
        polynomials,
    })
}

fn found<'a>(view: Option<AssertionView<'a>>) -> Result<AssertionView<'a>, Stop> {
    view.ok_or(Stop::Breaks)
}

fn guarded<'a>(a: &AssertionView<'a>) -> Result<Guarded<'a>, Stop> {
    guarded_of(a).ok_or(Stop::Breaks)
}

// The part of a sum with this number.
fn summand<'a>(a: &AssertionView<'a>, number: usize) -> Result<AssertionView<'a>, Stop> {
    let mut rest = summands(a).ok_or(Stop::Breaks)?;
    for _i in 0..number {
        rest = rest.split_first().ok_or(Stop::Breaks)?.1;
    }
    Ok(rest.split_first().ok_or(Stop::Breaks)?.0)
}

impl Page<'_> {
    /// Puts the node at the end of a path, where P is there and Q is needed at its beginning.
    #[cycle(show)]
    pub fn show(
        &mut self,
        known: &mut Known,
        certificate: &Certificate,
        p: &AssertionView<'_>,
        q: &AssertionView<'_>,
        path: &[usize],
    ) -> Result<(), Stop> {
        let Some((i, rest)) = path.split_first() else {
            return Ok(self.put_certificate(known, certificate, p, q)?);
        };
        let i = *i;
        match certificate {
            Certificate::Via(r, c, d) => {
                if i == 0 {
                    self.show(known, c, p, &r.view(), rest)
                } else {
                    self.show(known, d, &r.view(), q, rest)
                }
            }
            Certificate::Pick(number, c) => self.show(
                known,
                c,
                &found(picked(p, *number))?,
                q,
                rest,
            ),
            Certificate::All(parts) => {
                let part = parts.get(i).ok_or(Stop::Breaks)?;
                let number = i64::try_from(i).map_err(|_error| Stop::Breaks)?;
                self.show(known, part, p, &found(picked(q, number))?, rest)
            }
            Certificate::Parts(parts) => {
                let part = parts.get(i).ok_or(Stop::Breaks)?;
                self.show(known, part, &summand(p, i)?, &summand(q, i)?, rest)
            }
            Certificate::Assume(c) => {
                let guard = guarded(p)?;
                push(self.alloc, &guard.condition, false, known)?;
                self.show(known, c, &guard.body, q, rest)
            }
            Certificate::DropGuard(c, d) => {
                let guard = guarded(q)?;
                if i > 0 {
                    return self.show(known, d, p, &guard.body, rest);
                }
                push(self.alloc, &guard.condition, true, known)?;
                let zero = Assertion::natural(self.alloc, 0)?;
                let infinity = Assertion::infinity(self.alloc)?;
                self.show(known, c, &zero.view(), &infinity.view(), rest)
            }
            Certificate::Split(condition, c, d) => {
                let condition = condition.view();
                let part = if i == 0 { c } else { d };
                let left = branch(self.alloc, &condition, i == 0, p)?;
                let right = branch(self.alloc, &condition, i == 0, q)?;
                push(self.alloc, &condition, i > 0, known)?;
                self.show(known, part, &left.view(), &right.view(), rest)
            }
            Certificate::ByDefinition(name, c) => {
                let both = both_unfolded(self.alloc, self.defines, name, p, q)?;
                self.show(known, c, &both.left.view(), &both.right.view(), rest)
            }
            Certificate::Fact(fact, c) => {
                let mut polynomials = added(self.alloc, fact, known)?;
                known.polynomials.append(&mut polynomials)?;
                self.show(known, c, p, q, rest)
            }
            _ => Err(Stop::Breaks),
        }
    }
}
