// Structs and their members (C11 6.7.2.1, 6.7.2.3).
ghost use Rattle.std.specs.Prelude.{◌≡◌, IfOk, IfSome, OnOk};
ghost use Rattle.std.specs.List.{slice_get};
ghost use Rattle.qs_types.specs.EnvOf.{env_tree};
ghost use Rattle.qs_types.specs.LayoutLaws.{IsSmall};
ghost use Rattle.qs_types.specs.UnitRules as rules;
ghost use Rattle.qs_typing_findings.specs.ContextOf.{context_tree};
ghost use Rattle.qs_typing.specs.DeclaredOf.{option_type};
ghost use Rattle.qs_typing.specs.Declares.{IsMember};
ghost use Rattle.qs_typing.specs.LengthsOf.{AreTyped, AreValued};
ghost use Rattle.qs_typing.specs.StructWalks.{AddsDeclared, AddsGroup, AddsMembers, AreMemberTests};
ghost use Rattle.qs_typing.specs.StructWalks.{DefinesAt, IsPlace, KnowsStruct, WalksGroup, WalksMember};
ghost use Rattle.qs_typing.specs.StructWalks.{WalksMembers, WalksStruct};

use crate::declared_types::{Declared, declarator_declared};
use crate::lengths::{ArrayLengths, walk_lengths};
use crate::members_before::{MembersBefore, member_end};
use indexmap::IndexMap;
use qs_base::{Name, NoMemory};
use qs_syntax::{Base, Declarator, Members, Struct};
use qs_types::{CType, Env, Extent, Rule, SIZE_LIMIT, extent_of};
use qs_typing_findings::{Context, Test, Walk, keeps, violates};
use std::alloc::Global;

/// Whether a member of this extent has room behind this end.
fn has_room(end: u32, extent: Option<Extent>) -> bool
    requires { IfSome extent IsSmall }
    ensures { result ≡ rules.has_room end extent }
{
    match extent {
        None => true,
        Some(extent) => member_end(end, extent) <= u64::from(SIZE_LIMIT),
    }
}

fn option_extent(structs: &Env, t: &Option<CType>) -> Option<Extent>
    ensures extent { result ≡ rules.option_extent (env_tree structs.now) (option_type t.now) }
    ensures small { IfSome result IsSmall }
{
    extent_of(structs, t.as_ref()?)
}

/// What a member declares behind this end.
fn member_declared(
    alloc: Global,
    c: &Context,
    end: u32,
    base: &Base,
    d: &Declarator,
    lengths: ArrayLengths,
) -> Result<Declared, NoMemory>
    requires typed { AreTyped c.now d.now.lengths.given.items lengths }
    requires values { AreValued c.now d.now.lengths.given.items lengths }
    ensures { IfOk result (IsMember c.now end base.now d.now) }
{
    let Declared { tests, of } = declarator_declared(alloc, c, base, d, None, lengths)?;
    let has_room = has_room(end, option_extent(c.structs(), &of));
    let mut tests = tests;
    tests.push(keeps(Rule::LargeType, has_room))?;
    Ok(Declared {
        tests,
        of: if has_room { of } else { None },
    })
}

fn member_tests(
    alloc: Global,
    all_typed: bool,
    declared: &[Test],
    again: bool,
) -> Result<Vec<Test>, NoMemory>
    ensures { IfOk result (λ ts. AreMemberTests all_typed declared.now again ts.items) }
{
    let mut tests = Vec::new(alloc);
    if !all_typed {
        return Ok(tests);
    }
    tests.extend_from_slice(declared)?;
    tests.push(violates(Rule::MemberTwice, again))?;
    Ok(tests)
}

/// Walks over a member behind others.
fn walk_member(
    alloc: Global,
    c: &Context,
    before: &mut MembersBefore,
    base: &Base,
    d: &Declarator,
    walk: &mut Walk,
) -> Result<(), NoMemory>
    ensures before { OnOk result (AddsDeclared c.now base.now d.now before.old before.new) }
    ensures walked { OnOk result (WalksMember c.now before.old base.now d.now walk.old walk.new) }
{
    walk.open()?;
    let lengths = walk_lengths(alloc, c, &d.lengths.given, walk)?;
    let all_typed = lengths.all_typed;
    let declared = member_declared(alloc, c, before.end, base, d, lengths)?;
    let again = before.has_name(&d.name);
    let tests = member_tests(alloc, all_typed, &declared.tests, again)?;
    walk.judge(d.node, &tests);
    before.add(alloc, c.structs(), &d.name, declared.of)
}

/// Walks over members that are declared together.
fn walk_together(
    alloc: Global,
    c: &Context,
    before: &mut MembersBefore,
    base: &Base,
    ds: &[Declarator],
    walk: &mut Walk,
) -> Result<(), NoMemory>
    ensures before { OnOk result (AddsGroup c.now base.now ds.now before.old before.new) }
    ensures walked { OnOk result (WalksGroup c.now before.old base.now ds.now walk.old walk.new) }
{
    for d in ds {
        walk_member(alloc, c, before, base, d, walk)?;
    }
    Ok(())
}

fn walk_members(
    alloc: Global,
    c: &Context,
    before: &mut MembersBefore,
    ms: &[Members],
    walk: &mut Walk,
) -> Result<(), NoMemory>
    ensures before { OnOk result (AddsMembers c.now ms.now before.old before.new) }
    ensures walked { OnOk result (WalksMembers c.now before.old ms.now walk.old walk.new) }
{
    for m in ms {
        walk_together(alloc, c, before, &m.base, &m.declarators, walk)?;
    }
    Ok(())
}

fn is_defined(c: &Context, tag: &Name) -> bool
    ensures { result ≡ rules.is_defined (context_tree c.now) tag.now }
{
    match c.tag_place(tag) {
        None => false,
        Some(k) => match c.structs().structs().get(k as usize) {
            None => false,
            Some(structure) => structure.members.is_some(),
        },
    }
}

fn has_no_members(c: &Context, k: u32) -> bool
    ensures { result ≡ rules.has_no_members (slice_get (context_tree c.now).structs k) }
{
    match c.structs().structs().get(k as usize) {
        None => false,
        Some(structure) => structure.members.is_none(),
    }
}

/// Gives the struct with this number these members, if it has none.
#[tactic(auto, using(crate::proofs::MemberDefinitions::without_members))]
fn define_at(
    alloc: Global,
    c: &mut Context,
    members: IndexMap<Name, CType>,
    k: Option<u32>,
) -> Result<(), NoMemory>
    ensures { OnOk result (DefinesAt k members.entries c.old c.new) }
{
    match k {
        None => Ok(()),
        Some(k) => {
            if has_no_members(c, k) {
                c.define(alloc, k, members)?;
            }
            Ok(())
        }
    }
}

fn is_option_defined(c: &Context, tag: &Option<Name>) -> bool
    ensures { result ≡ rules.is_option_defined (context_tree c.now) tag.now }
{
    match tag {
        None => false,
        Some(tag) => is_defined(c, tag),
    }
}

/// Walks over a struct, which is known to its members, and defined behind them, and tells its
/// place.
pub fn walk_struct(
    alloc: Global,
    c: &mut Context,
    s: &Struct,
    walk: &mut Walk,
) -> Result<Option<u32>, NoMemory>
    ensures place { IfOk result (IsPlace c.old s.now) }
    ensures context { OnOk result (KnowsStruct s.now c.old c.new) }
    ensures walked { OnOk result (WalksStruct c.old s.now walk.old walk.new) }
{
    walk.open()?;
    let defined = is_option_defined(c, &s.name);
    walk.judge(s.node, &[violates(Rule::UnknownTag, defined)]);
    let place = c.declare_struct(alloc, &s.name)?;
    let mut before = MembersBefore::new(alloc);
    walk_members(alloc, c, &mut before, &s.members, walk)?;
    define_at(alloc, c, before.members, place)?;
    Ok(place)
}
