// Copies of what stands at file scope (C11 6.9).
ghost use Rattle.std.specs.Prelude.{◌≡◌, IfOk, map};
ghost use Rattle.qs_syntax.specs.TreeOf.{parameter_tree, struct_tree, defined_tree, typedef_tree};
ghost use Rattle.qs_syntax.specs.TreeOf.{body_tree, function_tree, decl_tree};
ghost use Rattle.qs_syntax.specs.UnitTrees.{unit_tree};

use crate::declarations::{
    copy_declaration, copy_declarators, copy_members, copy_name, copy_parameter,
};
use crate::statements::copy_stmts;
use qs_base::NoMemory;
use qs_syntax::{Decl, Defined, Forward, Function, Parameter, Stmt, Struct, Typedef, Unit};
use std::alloc::Global;

fn copy_struct(alloc: Global, from: &Struct) -> Result<Struct, NoMemory>
    ensures { IfOk result (λ to. struct_tree to ≡ struct_tree from.now) }
{
    let mut members = Vec::new(alloc);
    for group in &from.members {
        members.push(copy_members(alloc, group)?)?;
    }
    Ok(Struct {
        node: from.node,
        name: copy_name(alloc, &from.name)?,
        members,
    })
}

fn copy_parameters(alloc: Global, from: &[Parameter]) -> Result<Vec<Parameter>, NoMemory>
    ensures { IfOk result (λ to. map parameter_tree to.items ≡ map parameter_tree from.now) }
{
    let mut to = Vec::new(alloc);
    for parameter in from {
        to.push(copy_parameter(alloc, parameter)?)?;
    }
    Ok(to)
}

fn copy_body(alloc: Global, from: &Option<Vec<Stmt>>) -> Result<Option<Vec<Stmt>>, NoMemory>
    ensures { IfOk result (λ to. body_tree to ≡ body_tree from.now) }
{
    match from {
        None => Ok(None),
        Some(items) => Ok(Some(copy_stmts(alloc, items)?)),
    }
}

fn copy_function(alloc: Global, from: &Function) -> Result<Function, NoMemory>
    ensures { IfOk result (λ to. function_tree to ≡ function_tree from.now) }
{
    Ok(Function {
        node: from.node,
        result_type: from.result_type.copy(alloc)?,
        name: from.name.copy(alloc)?,
        parameters: copy_parameters(alloc, &from.parameters)?,
        body: copy_body(alloc, &from.body)?,
    })
}

fn copy_defined(alloc: Global, from: &Defined) -> Result<Defined, NoMemory>
    ensures { IfOk result (λ to. defined_tree to ≡ defined_tree from.now) }
{
    match from {
        Defined::Struct(from) => Ok(Defined::Struct(copy_struct(alloc, from)?)),
        Defined::Base(from) => Ok(Defined::Base(from.copy(alloc)?)),
    }
}

fn copy_typedef(alloc: Global, from: &Typedef) -> Result<Typedef, NoMemory>
    ensures { IfOk result (λ to. typedef_tree to ≡ typedef_tree from.now) }
{
    let defined = copy_defined(alloc, &from.defined)?;
    Ok(Typedef {
        defined,
        names: copy_declarators(alloc, &from.names)?,
    })
}

fn copy_decl(alloc: Global, from: &Decl) -> Result<Decl, NoMemory>
    ensures { IfOk result (λ to. decl_tree to ≡ decl_tree from.now) }
{
    match from {
        Decl::Struct(from) => Ok(Decl::Struct(copy_struct(alloc, from)?)),
        Decl::Forward(from) => Ok(Decl::Forward(Forward {
            node: from.node,
            name: from.name.copy(alloc)?,
        })),
        Decl::Typedef(from) => Ok(Decl::Typedef(copy_typedef(alloc, from)?)),
        Decl::Function(from) => Ok(Decl::Function(copy_function(alloc, from)?)),
        Decl::Variable(from) => Ok(Decl::Variable(copy_declaration(alloc, from)?)),
    }
}

fn copy_decls(alloc: Global, from: &[Decl]) -> Result<Vec<Decl>, NoMemory>
    ensures { IfOk result (λ to. map decl_tree to.items ≡ map decl_tree from.now) }
{
    let mut to = Vec::new(alloc);
    for declaration in from {
        to.push(copy_decl(alloc, declaration)?)?;
    }
    Ok(to)
}

/// A copy of a unit.
pub fn copy_unit(alloc: Global, from: &Unit) -> Result<Unit, NoMemory>
    ensures { IfOk result (λ to. unit_tree to ≡ unit_tree from.now) }
{
    from.with_copies(alloc, copy_decls(alloc, from.declarations())?)
}
