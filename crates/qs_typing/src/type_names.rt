// Type names (C11 6.7.8).
ghost use Rattle.std.specs.Prelude.{IfOk, OnOk};
ghost use Rattle.qs_typing.specs.TypeNameWalks.{AreTypeNameTests, IsDefinedType, KnowsBaseTag};
ghost use Rattle.qs_typing.specs.TypeNameWalks.{KnowsDefined, KnowsOne, KnowsAll, KnowsTypedef};
ghost use Rattle.qs_typing.specs.TypeNameWalks.{WalksAll, WalksDefined, WalksOne, WalksTypedef};

use crate::declared_types::type_name_declared;
use crate::lengths::walk_lengths;
use crate::structs::walk_struct;
use qs_base::NoMemory;
use qs_syntax::{Base, Declarator, Defined, Typedef};
use qs_types::{CType, Rule};
use qs_typing_findings::{Context, Test, Walk, keeps, struct_at, violates};
use std::alloc::Global;

/// The tests of a type name: that it is declared once, but by `typedef` again, those of its type,
/// and that it keeps the type.
fn type_name_tests(
    alloc: Global,
    all_typed: bool,
    again: bool,
    declared: &[Test],
    kept: bool,
) -> Result<Vec<Test>, NoMemory>
    ensures { IfOk result (λ ts. AreTypeNameTests all_typed again declared.now kept ts.items) }
{
    let mut tests = Vec::new(alloc);
    if !all_typed {
        return Ok(tests);
    }
    tests.push(violates(Rule::DeclaredTwice, again))?;
    tests.extend_from_slice(declared)?;
    tests.push(keeps(Rule::RenamedType, kept))?;
    Ok(tests)
}

/// Walks over a type name, which is known behind its declarator.
fn walk_type_name(
    alloc: Global,
    c: &mut Context,
    base: &Option<CType>,
    d: &Declarator,
    walk: &mut Walk,
) -> Result<(), NoMemory>
    ensures context { OnOk result (KnowsOne base.now d.now c.old c.new) }
    ensures walked { OnOk result (WalksOne c.old base.now d.now walk.old walk.new) }
{
    walk.open()?;
    let lengths = walk_lengths(alloc, c, &d.lengths.given, walk)?;
    let all_typed = lengths.all_typed;
    let declared = type_name_declared(alloc, c, base, d, lengths)?;
    let again = c.is_declared_here(&d.name);
    let kept = c.is_type_kept(&d.name, &declared.of);
    let tests = type_name_tests(alloc, all_typed, again, &declared.tests, kept)?;
    walk.judge(d.node, &tests);
    c.add_type_name(alloc, &d.name, &declared.of)
}

/// Walks over type names that are declared together.
fn walk_type_names(
    alloc: Global,
    c: &mut Context,
    base: &Option<CType>,
    ds: &[Declarator],
    walk: &mut Walk,
) -> Result<(), NoMemory>
    ensures context { OnOk result (KnowsAll base.now ds.now c.old c.new) }
    ensures walked { OnOk result (WalksAll c.old base.now ds.now walk.old walk.new) }
{
    for d in ds {
        walk_type_name(alloc, c, base, d, walk)?;
    }
    Ok(())
}

/// Declares the tag of a type that begins a `typedef`, if it is new (C11 6.7.2.3).
fn declare_tag(alloc: Global, c: &mut Context, base: &Base) -> Result<(), NoMemory>
    ensures { OnOk result (KnowsBaseTag base.now c.old c.new) }
{
    match base {
        Base::Void => Ok(()),
        Base::Int => Ok(()),
        Base::Unsigned => Ok(()),
        Base::Char => Ok(()),
        Base::Struct(tag) => c.with_tag(tag.copy(alloc)?),
        Base::Named(_) => Ok(()),
    }
}

/// Walks over what a `typedef` gives names to, which is known behind it, and tells its type.
fn walk_defined(
    alloc: Global,
    c: &mut Context,
    d: &Defined,
    walk: &mut Walk,
) -> Result<Option<CType>, NoMemory>
    ensures typed { IfOk result (IsDefinedType c.old d.now) }
    ensures context { OnOk result (KnowsDefined d.now c.old c.new) }
    ensures walked { OnOk result (WalksDefined c.old d.now walk.old walk.new) }
{
    match d {
        Defined::Struct(s) => Ok(struct_at(walk_struct(alloc, c, s, walk)?)),
        Defined::Base(b) => {
            declare_tag(alloc, c, b)?;
            c.base_type(alloc, b)
        }
    }
}

/// Walks over a `typedef`, whose names are known behind it.
pub fn walk_typedef(
    alloc: Global,
    c: &mut Context,
    t: &Typedef,
    walk: &mut Walk,
) -> Result<(), NoMemory>
    ensures context { OnOk result (KnowsTypedef t.now c.old c.new) }
    ensures walked { OnOk result (WalksTypedef c.old t.now walk.old walk.new) }
{
    let base = walk_defined(alloc, c, &t.defined, walk)?;
    walk_type_names(alloc, c, &base, &t.names, walk)
}
