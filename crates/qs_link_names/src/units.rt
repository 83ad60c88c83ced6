// What stands at file scope with its names as the program calls them (C11 6.9).
ghost use Rattle.std.specs.Prelude.{◌≡◌, IfOk, map};
ghost use Rattle.qs_syntax.specs.TreeOf.{body_tree, decl_tree, defined_tree, function_tree};
ghost use Rattle.qs_syntax.specs.TreeOf.{struct_tree, typedef_tree};
ghost use Rattle.qs_link_names.specs.InternalOf.{internal_of};
ghost use Rattle.qs_link_names.specs.LinkedUnits as spec;

use crate::declarations::{
    copied_name, linked_declarators, linked_members, linked_outer_declaration, linked_parameters,
};
use crate::linkage::Internal;
use crate::statements::linked_stmts;
use qs_base::NoMemory;
use qs_syntax::{Decl, Defined, Forward, Function, Stmt, Struct, Typedef};
use std::alloc::Global;

fn linked_struct(alloc: Global, own: &Internal<'_>, from: &Struct) -> Result<Struct, NoMemory>
    ensures { IfOk result (λ to. struct_tree to ≡ spec.linked_struct (internal_of own.now) (struct_tree from.now)) }
{
    let mut members = Vec::new(alloc);
    for group in &from.members {
        members.push(linked_members(alloc, own, group)?)?;
    }
    Ok(Struct {
        node: from.node,
        name: copied_name(alloc, &from.name)?,
        members,
    })
}

fn linked_defined(alloc: Global, own: &Internal<'_>, from: &Defined) -> Result<Defined, NoMemory>
    ensures { IfOk result (λ to. defined_tree to ≡ spec.linked_defined (internal_of own.now) (defined_tree from.now)) }
{
    match from {
        Defined::Struct(s) => Ok(Defined::Struct(linked_struct(alloc, own, s)?)),
        Defined::Base(base) => Ok(Defined::Base(base.copy(alloc)?)),
    }
}

fn linked_typedef(alloc: Global, own: &Internal<'_>, from: &Typedef) -> Result<Typedef, NoMemory>
    ensures { IfOk result (λ to. typedef_tree to ≡ spec.linked_typedef (internal_of own.now) (typedef_tree from.now)) }
{
    let defined = linked_defined(alloc, own, &from.defined)?;
    Ok(Typedef {
        defined,
        names: linked_declarators(alloc, own, &from.names)?,
    })
}

fn linked_body<'a>(
    alloc: Global,
    own: &Internal<'a>,
    from: &'a Option<Vec<Stmt>>,
) -> Result<Option<Vec<Stmt>>, NoMemory>
    ensures { IfOk result (λ to. body_tree to ≡ spec.linked_body (internal_of own.now) (body_tree from.now)) }
{
    match from {
        None => Ok(None),
        Some(items) => Ok(Some(linked_stmts(alloc, own, items)?)),
    }
}

fn linked_function<'a>(
    alloc: Global,
    own: &Internal<'a>,
    from: &'a Function,
) -> Result<Function, NoMemory>
    ensures { IfOk result (λ to. function_tree to ≡ spec.linked_function (internal_of own.now) (function_tree from.now)) }
{
    let name = own.linked(alloc, &from.name)?;
    let mut inner = own.inner(alloc)?;
    let parameters = linked_parameters(alloc, &mut inner, &from.parameters)?;
    let body = linked_body(alloc, &inner, &from.body)?;
    Ok(Function {
        node: from.node,
        result_type: from.result_type.copy(alloc)?,
        name,
        parameters,
        body,
    })
}

/// What stands at file scope, with its names as the program calls them.
pub fn linked_decl<'a>(alloc: Global, own: &Internal<'a>, from: &'a Decl) -> Result<Decl, NoMemory>
    ensures { IfOk result (λ to. decl_tree to ≡ spec.linked_decl (internal_of own.now) (decl_tree from.now)) }
{
    match from {
        Decl::Struct(s) => Ok(Decl::Struct(linked_struct(alloc, own, s)?)),
        Decl::Forward(f) => Ok(Decl::Forward(Forward {
            node: f.node,
            name: f.name.copy(alloc)?,
        })),
        Decl::Typedef(t) => Ok(Decl::Typedef(linked_typedef(alloc, own, t)?)),
        Decl::Function(f) => Ok(Decl::Function(linked_function(alloc, own, f)?)),
        Decl::Variable(d) => Ok(Decl::Variable(linked_outer_declaration(alloc, own, d)?)),
    }
}
