// Units (C11 6.9).
ghost use Rattle.std.specs.Prelude.{OnOk};
ghost use Rattle.qs_typing.specs.DeclarationWalks.{KnowsDeclaration, KnowsDeclarations};
ghost use Rattle.qs_typing.specs.DeclarationWalks.{WalksDeclaration, WalksDeclarations};

use crate::functions::walk_function;
use crate::structs::walk_struct;
use crate::type_names::walk_typedef;
use crate::variables::walk_variables;
use qs_base::NoMemory;
use qs_syntax::Decl;
use qs_typing_findings::{Context, Walk};
use std::alloc::Global;

/// Walks over what stands at file scope, which is known behind it.
fn walk_declaration(
    alloc: Global,
    c: &mut Context,
    d: &Decl,
    walk: &mut Walk,
) -> Result<(), NoMemory>
    ensures context { OnOk result (KnowsDeclaration d.now c.old c.new) }
    ensures walked { OnOk result (WalksDeclaration c.old d.now walk.old walk.new) }
{
    match d {
        Decl::Struct(s) => {
            walk_struct(alloc, c, s, walk)?;
            Ok(())
        }
        Decl::Forward(f) => {
            walk.open()?;
            c.with_tag(f.name.copy(alloc)?)
        }
        Decl::Typedef(t) => walk_typedef(alloc, c, t, walk),
        Decl::Function(f) => walk_function(alloc, c, f, walk),
        Decl::Variable(d) => walk_variables(alloc, true, c, &d.base, &d.variables, walk),
    }
}

/// Walks over all that stands at file scope.
pub fn walk_declarations(
    alloc: Global,
    c: &mut Context,
    ds: &[Decl],
    walk: &mut Walk,
) -> Result<(), NoMemory>
    ensures context { OnOk result (KnowsDeclarations ds.now c.old c.new) }
    ensures walked { OnOk result (WalksDeclarations c.old ds.now walk.old walk.new) }
{
    for d in ds {
        walk_declaration(alloc, c, d, walk)?;
    }
    Ok(())
}
