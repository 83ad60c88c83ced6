// Where the walk over a certificate is.
ghost use Rattle.std.specs.Prelude.{◌≡◌, IfOk, OnOk};
ghost use Rattle.qs_entail.specs.Answers.{Follows};
ghost use Rattle.qs_entail.specs.Checking.{ChecksContradiction, ChecksDifference};
ghost use Rattle.qs_entail.specs.Extending.{trial, both_trials};
ghost use Rattle.qs_entail.specs.Learning.{Pushes, LearnsFact};
ghost use Rattle.qs_entail.specs.Standing.{stands_here};
ghost use Rattle.qs_entail.specs.View.{known_view};
ghost use Rattle.qs_entail.specs.Walking.{place, cut, mark_of, EntersPart, LeavesPart};

use crate::Item;
use crate::certificate::{Certificate, Fact};
use crate::facts::added;
use crate::failed::{Failed, settle};
use crate::fault::Rule;
use crate::known::Known;
use crate::pushing::push;
use crate::rules::{arithmetic_holds, contradiction};
use crate::standing::stands;
use crate::stop::Stop;
use qs_assert::{AssertionView, CondView, Define};
use std::alloc::Global;

/// How many conditions and polynomials were known.
#[derive(Clone, Copy)]
pub struct Mark {
    pub conditions: usize,
    pub polynomials: usize,
}

/// Where the walk is: the path from the root, and what is known there.
#[derive(Drop)]
pub struct Walk {
    pub alloc: Global,
    pub path: Vec<usize>,
    pub known: Known,
}

impl Walk {
    /// Goes into part i of a node.
    pub fn enter(&mut self, i: usize) -> Result<(), Failed>
        ensures path { EntersPart i self.old.path.items self.new.path.items result }
        ensures known { known_view self.new.known ≡ known_view self.old.known }
    {
        self.path.push(i)?;
        Ok(())
    }

    /// And out of it.
    pub fn leave(&mut self)
        ensures path { LeavesPart self.old.path.items self.new.path.items }
        ensures known { known_view self.new.known ≡ known_view self.old.known }
    {
        self.path.pop();
    }

    fn mark(&self) -> Mark
        ensures { result ≡ mark_of (known_view self.now.known) }
    {
        Mark {
            conditions: self.known.conditions.len(),
            polynomials: self.known.polynomials.len(),
        }
    }

    /// Forgets what was pushed since.
    pub fn back(&mut self, mark: Mark)
        ensures { place self.new ≡ cut mark (place self.old) }
    {
        self.known.restore(mark.conditions, mark.polynomials);
    }

    /// Pushes a condition, or its negation.
    pub fn push(&mut self, condition: &CondView<'_>, negated: bool) -> Result<Mark, Stop>
        ensures step { Pushes negated condition.now self.old.known self.new.known result }
        ensures back { IfOk result (λ mark. cut mark (place self.new) ≡ place self.old) }
        ensures path { self.new.path.items ≡ self.old.path.items }
    {
        let mark = self.mark();
        push(self.alloc, condition, negated, &mut self.known)?;
        Ok(mark)
    }

    /// Whether a condition, or its negation, can be pushed.
    fn tries(&mut self, condition: &CondView<'_>, negated: bool) -> Result<(), Stop>
        ensures step { Follows result (trial negated condition.now (known_view self.old.known)) }
        ensures back { OnOk result (place self.new ≡ place self.old) }
        ensures path { self.new.path.items ≡ self.old.path.items }
    {
        let mark = self.push(condition, negated)?;
        self.back(mark);
        Ok(())
    }

    /// Whether a condition can be pushed, and its negation.
    pub fn tries_both(&mut self, condition: &CondView<'_>) -> Result<(), Stop>
        ensures step { Follows result (both_trials condition.now (known_view self.old.known)) }
        ensures back { OnOk result (place self.new ≡ place self.old) }
        ensures path { self.new.path.items ≡ self.old.path.items }
    {
        self.tries(condition, false)?;
        self.tries(condition, true)
    }

    /// Adds the polynomials of a fact.
    pub fn add(&mut self, fact: &Fact) -> Result<Mark, Stop>
        ensures step { LearnsFact fact.now self.old.known self.new.known result }
        ensures back { IfOk result (λ mark. cut mark (place self.new) ≡ place self.old) }
        ensures path { self.new.path.items ≡ self.old.path.items }
    {
        let mark = self.mark();
        let mut polynomials = added(self.alloc, fact, &self.known)?;
        self.known.polynomials.append(&mut polynomials)?;
        Ok(mark)
    }

    /// Whether the conditions of a node hold, polynomials aside.
    pub fn stands(
        &self,
        defines: &[Define],
        certificate: &Certificate,
        p: &AssertionView<'_>,
        q: &AssertionView<'_>,
    ) -> bool
        ensures { result ≡ stands_here certificate.now defines.now self.now.known p.now q.now }
    {
        let count = self.known.polynomials.len();
        stands(certificate, defines, &self.known.conditions, count, p, q)
    }

    /// Whether the items contradict what is known.
    #[tactic(auto, using(crate::proofs::Walks::says_settled))]
    pub fn contradicts(&self, items: &[Item]) -> Result<(), Failed>
        ensures { ChecksContradiction items.now self.now result }
    {
        settle(
            Rule::Contradict,
            contradiction(self.alloc, items, &self.known),
        )
    }

    /// Whether the items are the difference of two assertions.
    #[tactic(auto, using(crate::proofs::Walks::says_settled))]
    pub fn is_difference(
        &self,
        items: &[Item],
        p: &AssertionView<'_>,
        q: &AssertionView<'_>,
    ) -> Result<(), Failed>
        ensures { ChecksDifference items.now p.now q.now self.now result }
    {
        settle(
            Rule::Arithmetic,
            arithmetic_holds(self.alloc, items, &self.known, p, q),
        )
    }
}
