// The walk over a certificate, a node before its parts. On a fault its path leads to the node.
ghost use Rattle.qs_entail.specs.Checking.{Checks, ChecksRest, ChecksPart, ChecksUntil};
ghost use Rattle.qs_entail.specs.Checking.{ChecksPick, ChecksAll, ChecksEach};
ghost use Rattle.qs_entail.specs.Checking.{ChecksParts, ChecksRight, ChecksSums};
ghost use Rattle.qs_entail.specs.Checking.{ChecksAssume, ChecksGuarded};
ghost use Rattle.qs_entail.specs.Checking.{ChecksGuard, ChecksRefuted, ChecksBody};
ghost use Rattle.qs_entail.specs.Checking.{ChecksFirst, ChecksSecond, ChecksSide};
ghost use Rattle.qs_entail.specs.Checking.{ChecksBy, ChecksFact};

use crate::branches::branch;
use crate::certificate::{Certificate, Fact};
use crate::failed::{Failed, settle};
use crate::fault::Rule;
use crate::parts::{Guarded, guarded_of, members, picked, summands};
use crate::rules::{both_unfolded, ends, part_number};
use crate::standing::rule_of;
use crate::walk::{Mark, Walk};
use qs_assert::{AssertionView, AssertionViews, CondView, Define};
use qs_base::Name;

impl Walk {
    /// Checks a part, which is number i of its node.
    #[cycle(check)]
    fn check_part(
        &mut self,
        defines: &[Define],
        i: usize,
        part: &Certificate,
        p: &AssertionView<'_>,
        q: &AssertionView<'_>,
    ) -> Result<(), Failed>
        ensures { ChecksPart i part.now defines.now p.now q.now self.old self.new result }
    {
        self.enter(i)?;
        self.check(defines, part, p, q)?;
        self.leave();
        Ok(())
    }

    /// Checks a part, and forgets what was pushed since the mark.
    #[cycle(check)]
    fn check_until(
        &mut self,
        mark: Mark,
        defines: &[Define],
        i: usize,
        part: &Certificate,
        p: &AssertionView<'_>,
        q: &AssertionView<'_>,
    ) -> Result<(), Failed>
        ensures { ChecksUntil mark i part.now defines.now p.now q.now self.old self.new result }
    {
        self.check_part(defines, i, part, p, q)?;
        self.back(mark);
        Ok(())
    }

    /// Checks that a certificate shows that P is at least Q. On a fault the path leads to its node.
    #[cycle(check)]
    pub fn check(
        &mut self,
        defines: &[Define],
        certificate: &Certificate,
        p: &AssertionView<'_>,
        q: &AssertionView<'_>,
    ) -> Result<(), Failed>
        ensures { Checks certificate.now defines.now p.now q.now self.old self.new result }
    {
        if !self.stands(defines, certificate, p, q) {
            return Err(Failed::Step(rule_of(certificate)));
        }
        self.check_rest(defines, certificate, p, q)
    }

    /// Checks the polynomials and the parts of a node whose other conditions hold.
    #[cycle(check)]
    pub fn check_rest(
        &mut self,
        defines: &[Define],
        certificate: &Certificate,
        p: &AssertionView<'_>,
        q: &AssertionView<'_>,
    ) -> Result<(), Failed>
        ensures { ChecksRest certificate.now defines.now p.now q.now self.old self.new result }
    {
        match certificate {
            Certificate::Same => Ok(()),
            Certificate::Via(r, c, d) => {
                let middle = r.view();
                self.check_part(defines, 0, c, p, &middle)?;
                self.check_part(defines, 1, d, &middle, q)
            }
            Certificate::Pick(i, c) => self.check_pick(defines, *i, c, p, q),
            Certificate::All(parts) => self.check_all(defines, parts, p, q),
            Certificate::Parts(parts) => self.check_parts(defines, parts, p, q),
            Certificate::Assume(c) => self.check_assume(defines, c, p, q),
            Certificate::DropGuard(c, d) => {
                self.check_contradiction(defines, c, q)?;
                self.check_body(defines, d, p, q)
            }
            Certificate::Split(b, c, d) => {
                let condition = b.view();
                self.check_first(defines, &condition, c, p, q)?;
                self.check_second(defines, &condition, d, p, q)
            }
            Certificate::Contradict(items) => self.contradicts(items),
            Certificate::Arithmetic(items) => self.is_difference(items, p, q),
            Certificate::ByDefinition(name, c) => self.check_definition(defines, name, c, p, q),
            Certificate::Fact(fact, c) => self.check_fact(defines, fact, c, p, q),
        }
    }

    #[cycle(check)]
    fn check_pick(
        &mut self,
        defines: &[Define],
        i: i64,
        part: &Certificate,
        p: &AssertionView<'_>,
        q: &AssertionView<'_>,
    ) -> Result<(), Failed>
        ensures { ChecksPick i part.now defines.now p.now q.now self.old self.new result }
    {
        match picked(p, i) {
            Some(member) => self.check_part(defines, 0, part, &member, q),
            None => Err(Failed::Step(Rule::Pick)),
        }
    }

    #[cycle(check)]
    fn check_all(
        &mut self,
        defines: &[Define],
        parts: &[Certificate],
        p: &AssertionView<'_>,
        q: &AssertionView<'_>,
    ) -> Result<(), Failed>
        ensures { ChecksAll parts.now defines.now p.now q.now self.old self.new result }
    {
        match members(q) {
            Some(members) => self.check_each(defines, parts, p, members),
            None => Err(Failed::Step(Rule::All)),
        }
    }

    #[cycle(check)]
    fn check_each(
        &mut self,
        defines: &[Define],
        parts: &[Certificate],
        p: &AssertionView<'_>,
        members: AssertionViews<'_>,
    ) -> Result<(), Failed>
        ensures { ChecksEach parts.now defines.now p.now members.entry self.old self.new result }
    {
        let mut rest = members;
        for (i, part) in parts.iter().enumerate() {
            let Some((member, others)) = rest.split_first() else {
                return Ok(());
            };
            self.check_part(defines, i, part, p, &member)?;
            rest = others;
        }
        Ok(())
    }

    #[cycle(check)]
    fn check_parts(
        &mut self,
        defines: &[Define],
        parts: &[Certificate],
        p: &AssertionView<'_>,
        q: &AssertionView<'_>,
    ) -> Result<(), Failed>
        ensures { ChecksParts parts.now defines.now p.now q.now self.old self.new result }
    {
        match summands(p) {
            Some(left) => self.check_right(defines, parts, left, q),
            None => Err(Failed::Step(Rule::Parts)),
        }
    }

    #[cycle(check)]
    fn check_right(
        &mut self,
        defines: &[Define],
        parts: &[Certificate],
        left: AssertionViews<'_>,
        q: &AssertionView<'_>,
    ) -> Result<(), Failed>
        ensures { ChecksRight parts.now defines.now left.entry q.now self.old self.new result }
    {
        match summands(q) {
            Some(right) => self.check_pairs(defines, parts, left, right),
            None => Err(Failed::Step(Rule::Parts)),
        }
    }

    #[cycle(check)]
    fn check_pairs(
        &mut self,
        defines: &[Define],
        parts: &[Certificate],
        left: AssertionViews<'_>,
        right: AssertionViews<'_>,
    ) -> Result<(), Failed>
        ensures { ChecksSums parts.now defines.now left.entry right.entry self.old self.new result }
    {
        let mut lefts = left;
        let mut rights = right;
        for (i, part) in parts.iter().enumerate() {
            let Some((p, other_lefts)) = lefts.split_first() else {
                return Ok(());
            };
            let Some((q, other_rights)) = rights.split_first() else {
                return Ok(());
            };
            self.check_part(defines, i, part, &p, &q)?;
            lefts = other_lefts;
            rights = other_rights;
        }
        Ok(())
    }

    #[cycle(check)]
    fn check_assume(
        &mut self,
        defines: &[Define],
        part: &Certificate,
        p: &AssertionView<'_>,
        q: &AssertionView<'_>,
    ) -> Result<(), Failed>
        ensures { ChecksAssume part.now defines.now p.now q.now self.old self.new result }
    {
        match guarded_of(p) {
            Some(guarded) => self.check_guarded(defines, part, &guarded, q),
            None => Err(Failed::Step(Rule::Assume)),
        }
    }

    #[cycle(check)]
    fn check_guarded(
        &mut self,
        defines: &[Define],
        part: &Certificate,
        guarded: &Guarded<'_>,
        q: &AssertionView<'_>,
    ) -> Result<(), Failed>
        ensures { ChecksGuarded part.now defines.now guarded.now q.now self.old self.new result }
    {
        let mark = settle(Rule::Assume, self.push(&guarded.condition, false))?;
        self.check_until(mark, defines, 0, part, &guarded.body, q)
    }

    /// Checks that the condition of a guard holds, since 0 would else be at least infinity.
    #[cycle(check)]
    fn check_contradiction(
        &mut self,
        defines: &[Define],
        part: &Certificate,
        q: &AssertionView<'_>,
    ) -> Result<(), Failed>
        ensures { ChecksGuard part.now defines.now q.now self.old self.new result }
    {
        match guarded_of(q) {
            Some(guarded) => self.check_unguarded(defines, part, &guarded.condition),
            None => Err(Failed::Step(Rule::DropGuard)),
        }
    }

    #[cycle(check)]
    fn check_unguarded(
        &mut self,
        defines: &[Define],
        part: &Certificate,
        condition: &CondView<'_>,
    ) -> Result<(), Failed>
        ensures { ChecksRefuted condition.now part.now defines.now self.old self.new result }
    {
        let (zero, infinity) = ends(self.alloc)?;
        let mark = settle(Rule::DropGuard, self.push(condition, true))?;
        self.check_until(mark, defines, 0, part, &zero.view(), &infinity.view())
    }

    /// Checks a part for the body of a guard.
    #[cycle(check)]
    fn check_body(
        &mut self,
        defines: &[Define],
        part: &Certificate,
        p: &AssertionView<'_>,
        q: &AssertionView<'_>,
    ) -> Result<(), Failed>
        ensures { ChecksBody part.now defines.now p.now q.now self.old self.new result }
    {
        match guarded_of(q) {
            Some(guarded) => self.check_part(defines, 1, part, p, &guarded.body),
            None => Err(Failed::Step(Rule::DropGuard)),
        }
    }

    /// Checks the part in which the condition holds, after it was pushed and its negation.
    #[cycle(check)]
    fn check_first(
        &mut self,
        defines: &[Define],
        b: &CondView<'_>,
        part: &Certificate,
        p: &AssertionView<'_>,
        q: &AssertionView<'_>,
    ) -> Result<(), Failed>
        ensures { ChecksFirst b.now part.now defines.now p.now q.now self.old self.new result }
    {
        settle(Rule::Split, self.tries_both(b))?;
        self.check_branch(defines, b, true, part, p, q)
    }

    /// Checks the part in which the condition does not hold.
    #[cycle(check)]
    fn check_second(
        &mut self,
        defines: &[Define],
        b: &CondView<'_>,
        part: &Certificate,
        p: &AssertionView<'_>,
        q: &AssertionView<'_>,
    ) -> Result<(), Failed>
        ensures { ChecksSecond b.now part.now defines.now p.now q.now self.old self.new result }
    {
        self.check_branch(defines, b, false, part, p, q)
    }

    /// Checks the part of the first branches or of the second, with the condition or its negation.
    #[cycle(check)]
    fn check_branch(
        &mut self,
        defines: &[Define],
        b: &CondView<'_>,
        first: bool,
        part: &Certificate,
        p: &AssertionView<'_>,
        q: &AssertionView<'_>,
    ) -> Result<(), Failed>
        ensures { ChecksSide b.now first part.now defines.now p.now q.now self.old self.new result }
    {
        let left = branch(self.alloc, b, first, p)?;
        let right = branch(self.alloc, b, first, q)?;
        let mark = settle(Rule::Split, self.push(b, !first))?;
        self.check_until(
            mark,
            defines,
            part_number(first),
            part,
            &left.view(),
            &right.view(),
        )
    }

    #[cycle(check)]
    fn check_definition(
        &mut self,
        defines: &[Define],
        name: &Name,
        part: &Certificate,
        p: &AssertionView<'_>,
        q: &AssertionView<'_>,
    ) -> Result<(), Failed>
        ensures { ChecksBy name.now part.now defines.now p.now q.now self.old self.new result }
    {
        let both = settle(
            Rule::ByDefinition,
            both_unfolded(self.alloc, defines, name, p, q),
        )?;
        self.check_part(defines, 0, part, &both.left.view(), &both.right.view())
    }

    #[cycle(check)]
    fn check_fact(
        &mut self,
        defines: &[Define],
        fact: &Fact,
        part: &Certificate,
        p: &AssertionView<'_>,
        q: &AssertionView<'_>,
    ) -> Result<(), Failed>
        ensures { ChecksFact fact.now part.now defines.now p.now q.now self.old self.new result }
    {
        let mark = settle(Rule::Fact, self.add(fact))?;
        self.check_until(mark, defines, 0, part, p, q)
    }
}
