// The conditions without polynomials of a node, under what is known.
ghost use Rattle.std.specs.Prelude.{◌≡◌, nat_le};
ghost use Rattle.qs_base.specs.Results.{bind};
ghost use Rattle.qs_entail.specs.Faults as faults;
ghost use Rattle.qs_entail.specs.Faults.{definition, count_certs};
ghost use Rattle.qs_entail.specs.Facts as facts;
ghost use Rattle.qs_entail.specs.Standing.{counted, outline_of, stands_under};
ghost use Rattle.qs_entail.specs.Verdicts.{is_given, has_count, fact_stands, rule_of};
ghost use Rattle.qs_entail.specs.View.{cert_tree, certs_tree, fact_tree};

use crate::Item;
use crate::certificate::{Certificate, Fact};
use crate::combination::{are_counted, is_counted};
use crate::facts::condition_at;
use crate::fault::Rule;
use crate::parts::{is_guard, member_count, says_different, summand_count};
use crate::plain::is_plain;
use crate::unfolding::defined;
use qs_assert::{AssertionView, Cond, Define};
use qs_base::Name;

#[tactic(auto, using(crate::proofs::HeadLaws::numbered, crate::proofs::HeadLaws::none_numbered))]
fn has_member(p: &AssertionView<'_>, i: i64) -> bool
    ensures { result ≡ is_given (faults.member_of p.now i) }
{
    match member_count(p) {
        Some(count) => is_counted(i, count),
        None => false,
    }
}

fn is_so_many(wanted: usize, count: Option<usize>) -> bool
    ensures { result ≡ has_count wanted (counted count) }
{
    match count {
        Some(count) => wanted == count,
        None => false,
    }
}

#[tactic(auto, using(crate::proofs::StandingLaws::has_so_many))]
fn has_members(wanted: usize, q: &AssertionView<'_>) -> bool
    ensures { result ≡ has_count wanted (faults.member_count q.now) }
{
    is_so_many(wanted, member_count(q))
}

#[tactic(auto, using(crate::proofs::StandingLaws::has_so_many))]
fn has_summands(wanted: usize, q: &AssertionView<'_>) -> bool
    ensures { result ≡ has_count wanted (faults.summand_count q.now) }
{
    is_so_many(wanted, summand_count(q))
}

#[tactic(auto, using(crate::proofs::StandingLaws::given_some, crate::proofs::StandingLaws::given_none))]
fn is_defined(defines: &[Define], name: &Name) -> bool
    ensures { result ≡ is_given (definition defines.now name.now) }
{
    match defined(defines, name) {
        Some(_body) => true,
        None => false,
    }
}

/// The condition of this number says that two terms differ.
#[tactic(auto, using(crate::proofs::StandingLaws::apart_some, crate::proofs::StandingLaws::apart_none))]
fn is_apart(conditions: &[Cond], i: i64) -> bool
    ensures { result ≡ is_given (bind (facts.condition conditions.now i) facts.different_sides) }
{
    match condition_at(conditions, i) {
        Some(c) => says_different(c),
        None => false,
    }
}

fn is_divisor(n: u64) -> bool
    ensures { result ≡ nat_le 1 n }
{
    1 <= n
}

fn fact_stands(fact: &Fact, conditions: &[Cond], count: usize) -> bool
    ensures { result ≡ fact_stands (fact_tree fact.now) (outline_of conditions.now count) }
{
    match fact {
        Fact::Range(_) => true,
        Fact::CostRange(_) => true,
        Fact::Apart(i, items) => is_apart(conditions, *i) && are_counted(items, count),
        Fact::NumIs(_, items) => are_counted(items, count),
        Fact::NumBounds(_) => true,
        Fact::WrapUnsignedIs(_, first, second) => {
            are_counted(first, count) && are_counted(second, count)
        }
        Fact::WrapSignedIs(_, first, second) => {
            are_counted(first, count) && are_counted(second, count)
        }
        Fact::WrapUnsignedBounds(_) => true,
        Fact::WrapSignedBounds(_) => true,
        Fact::QuotientBounds(_, n) => is_divisor(*n),
        Fact::BitsBound(_) => true,
        Fact::BitsHalf(_, items) => are_counted(items, count),
        Fact::BitsRise(_, _, items) => are_counted(items, count),
    }
}

/// The rule of a certificate's root.
pub fn rule_of(certificate: &Certificate) -> Rule
    ensures { result ≡ rule_of (cert_tree certificate.now) }
{
    match certificate {
        Certificate::Same => Rule::Same,
        Certificate::Via(_, _, _) => Rule::Via,
        Certificate::Pick(_, _) => Rule::Pick,
        Certificate::All(_) => Rule::All,
        Certificate::Parts(_) => Rule::Parts,
        Certificate::Assume(_) => Rule::Assume,
        Certificate::DropGuard(_, _) => Rule::DropGuard,
        Certificate::Split(_, _, _) => Rule::Split,
        Certificate::Contradict(_) => Rule::Contradict,
        Certificate::Arithmetic(_) => Rule::Arithmetic,
        Certificate::ByDefinition(_, _) => Rule::ByDefinition,
        Certificate::Fact(_, _) => Rule::Fact,
    }
}

#[tactic(auto, using(crate::proofs::MemberLaws::certs_number))]
fn part_count(parts: &[Certificate]) -> usize
    ensures { result ≡ count_certs (certs_tree parts.now) }
{
    parts.len()
}

/// Whether the conditions of a node hold, polynomials aside, where so many polynomials are known.
pub fn stands(
    certificate: &Certificate,
    defines: &[Define],
    conditions: &[Cond],
    count: usize,
    p: &AssertionView<'_>,
    q: &AssertionView<'_>,
) -> bool
    ensures { result ≡ stands_under conditions.now count certificate.now defines.now p.now q.now }
{
    match certificate {
        Certificate::Same => p.same(q),
        Certificate::Via(_, _, _) => true,
        Certificate::Pick(i, _) => has_member(p, *i),
        Certificate::All(parts) => has_members(part_count(parts), q),
        Certificate::Parts(parts) => {
            has_summands(part_count(parts), p) && has_summands(part_count(parts), q)
        }
        Certificate::Assume(_) => is_guard(p),
        Certificate::DropGuard(_, _) => is_guard(q),
        Certificate::Split(_, _, _) => true,
        Certificate::Contradict(items) => are_counted(items, count),
        Certificate::Arithmetic(items) => is_plain(p) && is_plain(q) && are_counted(items, count),
        Certificate::ByDefinition(name, _) => is_defined(defines, name),
        Certificate::Fact(fact, _) => fact_stands(fact, conditions, count),
    }
}
