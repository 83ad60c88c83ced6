// What stands at file scope (C11 6.9): its trees, and the numbers of the nodes.
ghost use Rattle.std.specs.Prelude.{IfOk, OnOk};
ghost use Rattle.qs_syntax.specs.Sorts.{HasRoom, Numbers, Counts, Appends, bodies, defined_types};
ghost use Rattle.qs_syntax.specs.Sorts.{externals, functions, group_list, parameter_list, structs};
ghost use Rattle.qs_syntax.specs.Sorts.{typedefs, units};

use crate::declarations::{
    Declaration, Declarator, Members, Parameter, number_declaration, number_declarators,
    number_members, number_parameter,
};
use crate::nodes::{Node, number_node};
use crate::statements::{Stmt, number_stmts};
use crate::types::{Base, TypeName};
use qs_base::{Name, NoMemory};

/// A struct and its members (C11 6.7.2.1).
#[derive(Drop)]
pub struct Struct {
    /// Its node. Its token is `struct`.
    pub node: Node,
    /// The tag. Only a struct in a `typedef` may lack it.
    pub name: Option<Name>,
    /// The members, at least one group.
    pub members: Vec<Members>,
}

/// A struct that is declared without members (C11 6.7.2.3).
#[derive(Drop)]
pub struct Forward {
    /// Its node. Its token is `struct`.
    pub node: Node,
    /// The tag.
    pub name: Name,
}

/// A function (C11 6.7.6.3, 6.9.1).
#[derive(Drop)]
pub struct Function {
    /// The node of its header.
    pub node: Node,
    /// The type of its result.
    pub result_type: TypeName,
    /// The name.
    pub name: Name,
    /// The parameters.
    pub parameters: Vec<Parameter>,
    /// The items of its body.
    pub body: Option<Vec<Stmt>>,
}

/// What a `typedef` gives names to.
#[derive(Drop)]
pub enum Defined {
    /// A struct that is defined in it.
    Struct(Struct),
    /// A type.
    Base(Base),
}

/// Names for types (C11 6.7.8).
#[derive(Drop)]
pub struct Typedef {
    /// What the names are for.
    pub defined: Defined,
    /// The names, at least one, with what stands around each.
    pub names: Vec<Declarator>,
}

/// What stands at file scope (C11 6.9).
#[derive(Drop)]
pub enum Decl {
    /// A struct with its members.
    Struct(Struct),
    /// A struct without members.
    Forward(Forward),
    /// Names for types.
    Typedef(Typedef),
    /// A function, with or without a body.
    Function(Function),
    /// Variables.
    Variable(Declaration),
}

// ---- the numbers of the nodes

#[tactic(auto, using(crate::proofs::NumberingLoops::numbering))]
fn number_struct(structure: &mut Struct, tokens: &mut Vec<u32>) -> Result<(), NoMemory>
    requires { HasRoom structs tokens.old structure.old }
    ensures tree { OnOk result (Numbers structs tokens.old structure.old structure.new) }
    ensures end { OnOk result (Counts structs tokens.old structure.old tokens.new) }
    ensures tokens { OnOk result (Appends structs tokens.old structure.old tokens.new) }
{
    structure.node = number_node(structure.node, tokens)?;
    number_groups(&mut structure.members, tokens)
}

#[tactic(auto, using(crate::proofs::NumberingLoops::numbering))]
fn number_groups(groups: &mut [Members], tokens: &mut Vec<u32>) -> Result<(), NoMemory>
    requires { HasRoom group_list tokens.old groups.old }
    ensures tree { OnOk result (Numbers group_list tokens.old groups.old groups.new) }
    ensures end { OnOk result (Counts group_list tokens.old groups.old tokens.new) }
    ensures tokens { OnOk result (Appends group_list tokens.old groups.old tokens.new) }
{
    for group in groups.iter_mut() {
        number_members(group, tokens)?;
    }
    Ok(())
}

#[tactic(auto, using(crate::proofs::NumberingLoops::numbering))]
fn number_parameters(parameters: &mut [Parameter], tokens: &mut Vec<u32>) -> Result<(), NoMemory>
    requires { HasRoom parameter_list tokens.old parameters.old }
    ensures tree { OnOk result (Numbers parameter_list tokens.old parameters.old parameters.new) }
    ensures end { OnOk result (Counts parameter_list tokens.old parameters.old tokens.new) }
    ensures tokens { OnOk result (Appends parameter_list tokens.old parameters.old tokens.new) }
{
    for parameter in parameters.iter_mut() {
        number_parameter(parameter, tokens)?;
    }
    Ok(())
}

#[tactic(auto, using(crate::proofs::NumberingLoops::stmts_numbering))]
fn number_body(body: &mut Option<Vec<Stmt>>, tokens: &mut Vec<u32>) -> Result<(), NoMemory>
    requires { HasRoom bodies tokens.old body.old }
    ensures tree { OnOk result (Numbers bodies tokens.old body.old body.new) }
    ensures end { OnOk result (Counts bodies tokens.old body.old tokens.new) }
    ensures tokens { OnOk result (Appends bodies tokens.old body.old tokens.new) }
{
    match body {
        None => Ok(()),
        Some(items) => number_stmts(items, tokens),
    }
}

#[tactic(auto, using(crate::proofs::NumberingLoops::numbering))]
fn number_function(function: &mut Function, tokens: &mut Vec<u32>) -> Result<(), NoMemory>
    requires { HasRoom functions tokens.old function.old }
    ensures tree { OnOk result (Numbers functions tokens.old function.old function.new) }
    ensures end { OnOk result (Counts functions tokens.old function.old tokens.new) }
    ensures tokens { OnOk result (Appends functions tokens.old function.old tokens.new) }
{
    function.node = number_node(function.node, tokens)?;
    number_parameters(&mut function.parameters, tokens)?;
    number_body(&mut function.body, tokens)
}

#[tactic(auto, using(crate::proofs::NumberingLoops::numbering))]
fn number_defined(defined: &mut Defined, tokens: &mut Vec<u32>) -> Result<(), NoMemory>
    requires { HasRoom defined_types tokens.old defined.old }
    ensures tree { OnOk result (Numbers defined_types tokens.old defined.old defined.new) }
    ensures end { OnOk result (Counts defined_types tokens.old defined.old tokens.new) }
    ensures tokens { OnOk result (Appends defined_types tokens.old defined.old tokens.new) }
{
    match defined {
        Defined::Struct(s) => number_struct(s, tokens),
        Defined::Base(_) => Ok(()),
    }
}

#[tactic(auto, using(crate::proofs::NumberingLoops::numbering))]
fn number_typedef(typedef: &mut Typedef, tokens: &mut Vec<u32>) -> Result<(), NoMemory>
    requires { HasRoom typedefs tokens.old typedef.old }
    ensures tree { OnOk result (Numbers typedefs tokens.old typedef.old typedef.new) }
    ensures end { OnOk result (Counts typedefs tokens.old typedef.old tokens.new) }
    ensures tokens { OnOk result (Appends typedefs tokens.old typedef.old tokens.new) }
{
    number_defined(&mut typedef.defined, tokens)?;
    number_declarators(&mut typedef.names, tokens)
}

#[tactic(auto, using(crate::proofs::NumberingLoops::numbering))]
fn number_decl(declaration: &mut Decl, tokens: &mut Vec<u32>) -> Result<(), NoMemory>
    requires { HasRoom externals tokens.old declaration.old }
    ensures tree { OnOk result (Numbers externals tokens.old declaration.old declaration.new) }
    ensures end { OnOk result (Counts externals tokens.old declaration.old tokens.new) }
    ensures tokens { OnOk result (Appends externals tokens.old declaration.old tokens.new) }
{
    match declaration {
        Decl::Struct(s) => number_struct(s, tokens),
        Decl::Forward(f) => {
            f.node = number_node(f.node, tokens)?;
            Ok(())
        }
        Decl::Typedef(t) => number_typedef(t, tokens),
        Decl::Function(f) => number_function(f, tokens),
        Decl::Variable(d) => number_declaration(d, tokens),
    }
}

/// Numbers the nodes, where `tokens` has the token of each node before them; theirs are put behind.
#[tactic(auto, using(crate::proofs::NumberingLoops::numbering))]
fn number_decls(declarations: &mut [Decl], tokens: &mut Vec<u32>) -> Result<(), NoMemory>
    requires { HasRoom units tokens.old declarations.old }
    ensures tree { OnOk result (Numbers units tokens.old declarations.old declarations.new) }
    ensures end { OnOk result (Counts units tokens.old declarations.old tokens.new) }
    ensures tokens { OnOk result (Appends units tokens.old declarations.old tokens.new) }
{
    for declaration in declarations.iter_mut() {
        number_decl(declaration, tokens)?;
    }
    Ok(())
}

/// The same, of declarations that are handed over.
#[tactic(auto, using(crate::proofs::NumberingLoops::numbering))]
pub fn number_owned_decls(
    declarations: Vec<Decl>,
    tokens: &mut Vec<u32>,
) -> Result<Vec<Decl>, NoMemory>
    requires { HasRoom units tokens.old declarations.items }
    ensures tree { IfOk result (λ to. Numbers units tokens.old declarations.items to.items) }
    ensures end { OnOk result (Counts units tokens.old declarations.items tokens.new) }
    ensures tokens { OnOk result (Appends units tokens.old declarations.items tokens.new) }
{
    let mut declarations = declarations;
    number_decls(&mut declarations, tokens)?;
    Ok(declarations)
}
