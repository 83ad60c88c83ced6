// Declarations (C11 6.7): their trees, and the numbers of their nodes.
ghost use Rattle.std.specs.Prelude.{IfOk, OnOk};
ghost use Rattle.qs_syntax.specs.Sorts.{HasRoom, Numbers, Counts, Appends, braced_items, braces};
ghost use Rattle.qs_syntax.specs.Sorts.{brackets, declarations, declarator_list, declarators};
ghost use Rattle.qs_syntax.specs.Sorts.{initialiser_list, initialisers, member_groups, parameters};
ghost use Rattle.qs_syntax.specs.Sorts.{settings, variable_list, variables};

use crate::expressions::{Expr, Shape, number_expr, number_exprs};
use crate::nodes::{Node, number_node};
use crate::types::{Base, TypeName};
use qs_base::{Name, NoMemory};
use std::mem;

/// The brackets behind a declared name (C11 6.7.6.2).
#[derive(Drop)]
pub struct Lengths {
    /// Whether the first brackets are empty.
    pub is_open: bool,
    /// The lengths in the other brackets.
    pub given: Vec<Expr>,
}

/// A name that is declared, with what stands around it (C11 6.7.6): a member, a type name, or the
/// head of a variable.
#[derive(Drop)]
pub struct Declarator {
    /// Its node. Its token is the name's.
    pub node: Node,
    /// The count of the stars before the name.
    pub stars: u32,
    /// The name.
    pub name: Name,
    /// The brackets behind it.
    pub lengths: Lengths,
}

/// An initialiser (C11 6.7.9).
#[cycle(initialiser)]
#[derive(Drop)]
pub enum Initialiser {
    /// An expression.
    Value(Expr),
    /// A list in braces.
    List(InitialiserList),
}

/// A list of initialisers in braces.
#[cycle(initialiser)]
#[derive(Drop)]
pub struct InitialiserList {
    /// Its node. Its token is `{`.
    pub node: Node,
    /// What stands between the braces.
    pub items: Vec<Initialiser>,
}

/// A variable with its initialiser.
#[derive(Drop)]
pub struct Variable {
    /// The variable. Its node is the variable's.
    pub declarator: Declarator,
    /// Its initialiser.
    pub initialiser: Option<Initialiser>,
}

/// Variables that are declared together (C11 6.7).
#[derive(Drop)]
pub struct Declaration {
    /// The type that they begin with.
    pub base: Base,
    /// The variables, at least one.
    pub variables: Vec<Variable>,
}

/// A parameter (C11 6.7.6.3).
#[derive(Drop)]
pub struct Parameter {
    /// Its node. Its token is the name's, without a name the first.
    pub node: Node,
    /// The type before the name.
    pub type_name: TypeName,
    /// Its name.
    pub name: Option<Name>,
    /// The brackets behind it.
    pub lengths: Lengths,
}

/// Members that are declared together (C11 6.7.2.1).
#[derive(Drop)]
pub struct Members {
    /// The type that they begin with.
    pub base: Base,
    /// The members, at least one.
    pub declarators: Vec<Declarator>,
}

// ---- the numbers of the nodes

#[tactic(auto, using(crate::proofs::NumberingLoops::numbering))]
fn number_lengths(lengths: &mut Lengths, tokens: &mut Vec<u32>) -> Result<(), NoMemory>
    requires { HasRoom brackets tokens.old lengths.old }
    ensures tree { OnOk result (Numbers brackets tokens.old lengths.old lengths.new) }
    ensures end { OnOk result (Counts brackets tokens.old lengths.old tokens.new) }
    ensures tokens { OnOk result (Appends brackets tokens.old lengths.old tokens.new) }
{
    number_exprs(&mut lengths.given, tokens)
}

#[tactic(auto, using(crate::proofs::NumberingLoops::numbering))]
fn number_declarator(declarator: &mut Declarator, tokens: &mut Vec<u32>) -> Result<(), NoMemory>
    requires { HasRoom declarators tokens.old declarator.old }
    ensures tree { OnOk result (Numbers declarators tokens.old declarator.old declarator.new) }
    ensures end { OnOk result (Counts declarators tokens.old declarator.old tokens.new) }
    ensures tokens { OnOk result (Appends declarators tokens.old declarator.old tokens.new) }
{
    declarator.node = number_node(declarator.node, tokens)?;
    number_lengths(&mut declarator.lengths, tokens)
}

#[cycle(number_initialiser)]
#[tactic(auto, using(crate::proofs::NumberingLoops::numbering))]
fn number_initialiser(item: &mut Initialiser, tokens: &mut Vec<u32>) -> Result<(), NoMemory>
    requires { HasRoom initialisers tokens.old item.old }
    ensures tree { OnOk result (Numbers initialisers tokens.old item.old item.new) }
    ensures end { OnOk result (Counts initialisers tokens.old item.old tokens.new) }
    ensures tokens { OnOk result (Appends initialisers tokens.old item.old tokens.new) }
{
    let nothing = Expr {
        node: Node { id: 0, token: 0 },
        shape: Shape::Constant(0, false),
    };
    *item = match mem::replace(item, Initialiser::Value(nothing)) {
        Initialiser::Value(mut e) => {
            number_expr(&mut e, tokens)?;
            Initialiser::Value(e)
        }
        Initialiser::List(list) => Initialiser::List(number_list(list, tokens)?),
    };
    Ok(())
}

#[cycle(number_initialiser)]
#[tactic(auto, using(crate::proofs::NumberingLoops::numbering))]
fn number_list(list: InitialiserList, tokens: &mut Vec<u32>) -> Result<InitialiserList, NoMemory>
    requires { HasRoom braces tokens.old list }
    ensures tree { IfOk result (Numbers braces tokens.old list) }
    ensures end { OnOk result (Counts braces tokens.old list tokens.new) }
    ensures tokens { OnOk result (Appends braces tokens.old list tokens.new) }
{
    let node = number_node(list.node, tokens)?;
    let items = number_items(list.items, tokens)?;
    Ok(InitialiserList { node, items })
}

#[cycle(number_initialiser)]
#[tactic(auto, using(crate::proofs::NumberingLoops::initialisers_numbering))]
fn number_items(
    items: Vec<Initialiser>,
    tokens: &mut Vec<u32>,
) -> Result<Vec<Initialiser>, NoMemory>
    requires { HasRoom braced_items tokens.old items.items }
    ensures tree { IfOk result (λ to. Numbers braced_items tokens.old items.items to.items) }
    ensures end { OnOk result (Counts braced_items tokens.old items.items tokens.new) }
    ensures tokens { OnOk result (Appends braced_items tokens.old items.items tokens.new) }
{
    let mut items = items;
    number_initialisers(&mut items, tokens)?;
    Ok(items)
}

#[cycle(number_initialiser)]
#[tactic(auto, using(crate::proofs::NumberingLoops::numbering))]
fn number_initialisers(items: &mut [Initialiser], tokens: &mut Vec<u32>) -> Result<(), NoMemory>
    requires { HasRoom initialiser_list tokens.old items.old }
    ensures tree { OnOk result (Numbers initialiser_list tokens.old items.old items.new) }
    ensures end { OnOk result (Counts initialiser_list tokens.old items.old tokens.new) }
    ensures tokens { OnOk result (Appends initialiser_list tokens.old items.old tokens.new) }
{
    for item in items.iter_mut() {
        number_initialiser(item, tokens)?;
    }
    Ok(())
}

#[tactic(auto, using(crate::proofs::NumberingLoops::numbering))]
fn number_option(option: &mut Option<Initialiser>, tokens: &mut Vec<u32>) -> Result<(), NoMemory>
    requires { HasRoom settings tokens.old option.old }
    ensures tree { OnOk result (Numbers settings tokens.old option.old option.new) }
    ensures end { OnOk result (Counts settings tokens.old option.old tokens.new) }
    ensures tokens { OnOk result (Appends settings tokens.old option.old tokens.new) }
{
    match option {
        None => Ok(()),
        Some(initialiser) => number_initialiser(initialiser, tokens),
    }
}

#[tactic(auto, using(crate::proofs::NumberingLoops::numbering))]
fn number_variable(variable: &mut Variable, tokens: &mut Vec<u32>) -> Result<(), NoMemory>
    requires { HasRoom variables tokens.old variable.old }
    ensures tree { OnOk result (Numbers variables tokens.old variable.old variable.new) }
    ensures end { OnOk result (Counts variables tokens.old variable.old tokens.new) }
    ensures tokens { OnOk result (Appends variables tokens.old variable.old tokens.new) }
{
    number_declarator(&mut variable.declarator, tokens)?;
    number_option(&mut variable.initialiser, tokens)
}

/// Numbers the nodes of a declaration, where `tokens` has the token of each node before it; theirs
/// are put behind.
#[tactic(auto, using(crate::proofs::NumberingLoops::numbering))]
pub fn number_declaration(
    declaration: &mut Declaration,
    tokens: &mut Vec<u32>,
) -> Result<(), NoMemory>
    requires { HasRoom declarations tokens.old declaration.old }
    ensures tree { OnOk result (Numbers declarations tokens.old declaration.old declaration.new) }
    ensures end { OnOk result (Counts declarations tokens.old declaration.old tokens.new) }
    ensures tokens { OnOk result (Appends declarations tokens.old declaration.old tokens.new) }
{
    number_variables(&mut declaration.variables, tokens)
}

/// The same, of a declaration that is handed over.
pub fn number_owned_declaration(
    declaration: Declaration,
    tokens: &mut Vec<u32>,
) -> Result<Declaration, NoMemory>
    requires { HasRoom declarations tokens.old declaration }
    ensures tree { IfOk result (Numbers declarations tokens.old declaration) }
    ensures end { OnOk result (Counts declarations tokens.old declaration tokens.new) }
    ensures tokens { OnOk result (Appends declarations tokens.old declaration tokens.new) }
{
    let mut declaration = declaration;
    number_declaration(&mut declaration, tokens)?;
    Ok(declaration)
}

#[tactic(auto, using(crate::proofs::NumberingLoops::numbering))]
fn number_variables(variables: &mut [Variable], tokens: &mut Vec<u32>) -> Result<(), NoMemory>
    requires { HasRoom variable_list tokens.old variables.old }
    ensures tree { OnOk result (Numbers variable_list tokens.old variables.old variables.new) }
    ensures end { OnOk result (Counts variable_list tokens.old variables.old tokens.new) }
    ensures tokens { OnOk result (Appends variable_list tokens.old variables.old tokens.new) }
{
    for variable in variables.iter_mut() {
        number_variable(variable, tokens)?;
    }
    Ok(())
}

/// Numbers the nodes of a parameter, where `tokens` has the token of each node before it; theirs
/// are put behind.
#[tactic(auto, using(crate::proofs::NumberingLoops::numbering))]
pub fn number_parameter(parameter: &mut Parameter, tokens: &mut Vec<u32>) -> Result<(), NoMemory>
    requires { HasRoom parameters tokens.old parameter.old }
    ensures tree { OnOk result (Numbers parameters tokens.old parameter.old parameter.new) }
    ensures end { OnOk result (Counts parameters tokens.old parameter.old tokens.new) }
    ensures tokens { OnOk result (Appends parameters tokens.old parameter.old tokens.new) }
{
    parameter.node = number_node(parameter.node, tokens)?;
    number_lengths(&mut parameter.lengths, tokens)
}

/// Numbers the nodes of members that are declared together, where `tokens` has the token of each
/// node before them; theirs are put behind.
#[tactic(auto, using(crate::proofs::NumberingLoops::numbering))]
pub fn number_members(members: &mut Members, tokens: &mut Vec<u32>) -> Result<(), NoMemory>
    requires { HasRoom member_groups tokens.old members.old }
    ensures tree { OnOk result (Numbers member_groups tokens.old members.old members.new) }
    ensures end { OnOk result (Counts member_groups tokens.old members.old tokens.new) }
    ensures tokens { OnOk result (Appends member_groups tokens.old members.old tokens.new) }
{
    number_declarators(&mut members.declarators, tokens)
}

/// Numbers the nodes of declarators, where `tokens` has the token of each node before them; theirs
/// are put behind.
#[tactic(auto, using(crate::proofs::NumberingLoops::numbering))]
pub fn number_declarators(items: &mut [Declarator], tokens: &mut Vec<u32>) -> Result<(), NoMemory>
    requires { HasRoom declarator_list tokens.old items.old }
    ensures tree { OnOk result (Numbers declarator_list tokens.old items.old items.new) }
    ensures end { OnOk result (Counts declarator_list tokens.old items.old tokens.new) }
    ensures tokens { OnOk result (Appends declarator_list tokens.old items.old tokens.new) }
{
    for declarator in items.iter_mut() {
        number_declarator(declarator, tokens)?;
    }
    Ok(())
}
