// The check of a unit.
ghost use Rattle.std.specs.Prelude.{◌≡◌, IfErr, IfOk, OnOk, map};
ghost use Rattle.qs_syntax.specs.TreeOf.{decl_tree, function_tree};
ghost use Rattle.qs_types.specs.declared.limits.LimitKind.TheVariants as kinds;
ghost use Rattle.qs_syntax.specs.UnitTrees.{unit_tree};
ghost use Rattle.qs_types.specs.Limits as limits;
ghost use Rattle.qs_types.specs.WellTyped as well_typed;
ghost use Rattle.qs_typing_findings.specs.ContextOf.{context_tree};
ghost use Rattle.qs_typing.specs.Checking.{IsEnd, IsFirstPast, IsLate, IsUndefined, WalksUnit};
ghost use Rattle.qs_typing_findings.specs.EntityOf.{entity_at};
ghost use Rattle.qs_typing_findings.specs.Noting.{AreTextBlocks, IsTextBlock};
ghost use Rattle.qs_typing_findings.specs.Refusals.{IsAccepted, IsTold, early_refusal, first_past};
ghost use Rattle.qs_typing_findings.specs.Refusals.{has_main_in, limit_fault};
ghost use Rattle.qs_typing_findings.specs.Sets.{names_once};
ghost use Rattle.qs_typing_findings.specs.TypedOf.{typed_tree};
ghost use Rattle.qs_typing_findings.specs.declared.type_fault.TypeFault.TheVariants as faults;

use crate::units::walk_declarations;
use indexmap::IndexSet;
use qs_base::{MOST_MAIN_PARAMETERS, MOST_PARAMETERS, Name, NoMemory};
use qs_syntax::{Decl, Function, Unit};
use qs_syntax_copies::copy_unit;
use qs_types::LimitKind;
use qs_typing_findings::{
    Block, Context, Entity, Noted, TextBlock, TypeFault, TypedUnit, Walk, block_past,
};
use std::alloc::Global;

/// The most nodes of a unit.
const NODE_LIMIT: u32 = 10_000;

/// The most names of functions.
const FUNCTION_LIMIT: usize = 512;

/// The most bytes of data.
const GLOBAL_LIMIT: u32 = 16_777_216;

fn first_past_nodes(unit: &Unit) -> Option<u32>
    ensures { result ≡ first_past kinds.Nodes (unit_tree unit.now) }
{
    if unit.nodes() > NODE_LIMIT {
        Some(NODE_LIMIT)
    } else {
        None
    }
}

fn first_past_functions(alloc: Global, ds: &[Decl]) -> Result<Option<u32>, NoMemory>
    ensures { IfOk result (λ n. n ≡ first_past kinds.Functions (map decl_tree ds.now)) }
{
    let mut names: IndexSet<Name> = IndexSet::new(alloc);
    for d in ds {
        if let Decl::Function(f) = d {
            let is_new = names.insert(f.name.copy(alloc)?)?;
            if is_new && names.len() > FUNCTION_LIMIT {
                return Ok(Some(f.node.id));
            }
        }
    }
    Ok(None)
}

/// How many parameters the function may have.
fn parameter_limit(f: &Function) -> usize
    ensures { result ≡ limits.parameter_limit (function_tree f.now).name }
{
    if f.name.bytes() == b"main".as_slice() {
        MOST_MAIN_PARAMETERS as usize
    } else {
        MOST_PARAMETERS as usize
    }
}

fn parameter_past(f: &Function) -> Option<u32>
    ensures { result ≡ limits.parameter_past limits.parameter_limit (function_tree f.now) }
{
    Some(f.parameters.get(parameter_limit(f))?.node.id)
}

fn first_past_parameters(ds: &[Decl]) -> Option<u32>
    ensures { result ≡ first_past kinds.Parameters (map decl_tree ds.now) }
{
    for d in ds {
        if let Decl::Function(f) = d {
            if let Some(node) = parameter_past(f) {
                return Some(node);
            }
        }
    }
    None
}

/// The block of a text: its bytes and a zero (C11 6.4.5p6).
fn text_block(t: &TextBlock) -> Result<Block, NoMemory>
    ensures { IfOk result (IsTextBlock t.now) }
{
    let len = t.bytes.len();
    if len >= u32::MAX as usize {
        return Err(NoMemory);
    }
    Ok(Block {
        node: t.node,
        size: len as u32 + 1,
    })
}

fn text_blocks(alloc: Global, ts: &[TextBlock]) -> Result<Vec<Block>, NoMemory>
    ensures { IfOk result (λ bs. AreTextBlocks ts.now bs.items) }
{
    let mut blocks = Vec::new(alloc);
    for t in ts {
        blocks.push(text_block(t)?)?;
    }
    Ok(blocks)
}

fn first_past_globals(alloc: Global, noted: &Noted) -> Result<Option<u32>, NoMemory>
    ensures { IfOk result (IsFirstPast noted.now) }
{
    let mut blocks: Vec<Block> = Vec::from_slice(alloc, &noted.globals)?;
    let texts = text_blocks(alloc, &noted.texts)?;
    blocks.extend_from_slice(&texts)?;
    Ok(block_past(GLOBAL_LIMIT, &blocks))
}

fn has_body(entity: Option<&Entity>) -> bool
    ensures { result ≡ well_typed.entity_has_body (entity_at entity.entry) }
{
    match entity {
        None => false,
        Some(Entity::LocalVariable(_, _)) => false,
        Some(Entity::FileVariable(_, _)) => false,
        Some(Entity::Function { has_body, .. }) => *has_body,
        Some(Entity::Given(_)) => false,
    }
}

fn runs(entity: Option<&Entity>) -> bool
    ensures { result ≡ well_typed.entity_runs (entity_at entity.entry) }
{
    match entity {
        None => false,
        Some(Entity::LocalVariable(_, _)) => false,
        Some(Entity::FileVariable(_, _)) => false,
        Some(Entity::Function { has_body, .. }) => *has_body,
        Some(Entity::Given(_)) => true,
    }
}

/// These names, each once.
fn set_of(alloc: Global, names: &[Name]) -> Result<IndexSet<Name>, NoMemory>
    ensures { IfOk result (λ set. set.keys ≡ names_once names.now) }
{
    let mut set: IndexSet<Name> = IndexSet::new(alloc);
    for x in names {
        set.insert(x.copy(alloc)?)?;
    }
    Ok(set)
}

/// The first declaration of a function that is called and doesn't run.
fn undefined_from(c: &Context, calls: &IndexSet<Name>, ds: &[Decl]) -> Option<u32>
    ensures { IsUndefined c.now calls.now.keys ds.now result }
{
    for d in ds {
        if let Decl::Function(f) = d {
            if calls.contains(&f.name) && !runs(c.find(&f.name)) {
                return Some(f.node.id);
            }
        }
    }
    None
}

#[tactic(auto, using(qs_typing_findings::proofs::Sets::undefined_once))]
fn first_undefined(
    alloc: Global,
    c: &Context,
    calls: &[Name],
    ds: &[Decl],
) -> Result<Option<u32>, NoMemory>
    ensures { IfOk result (IsUndefined c.now calls.now ds.now) }
{
    let calls = set_of(alloc, calls)?;
    Ok(undefined_from(c, &calls, ds))
}

fn limit(kind: LimitKind, node: Option<u32>) -> Option<TypeFault>
    ensures { result ≡ limit_fault kind node }
{
    Some(TypeFault::Limit(kind, node?))
}

/// The first limit that is passed before the rules are looked at.
fn early_fault(alloc: Global, unit: &Unit) -> Result<Option<TypeFault>, NoMemory>
    ensures { IfOk result (λ f. f ≡ early_refusal (unit_tree unit.now)) }
{
    if let Some(node) = first_past_nodes(unit) {
        return Ok(limit(LimitKind::Nodes, Some(node)));
    }
    if let Some(node) = first_past_functions(alloc, unit.declarations())? {
        return Ok(limit(LimitKind::Functions, Some(node)));
    }
    let node = first_past_parameters(unit.declarations());
    Ok(limit(LimitKind::Parameters, node))
}

fn has_main(alloc: Global, c: &Context) -> Result<bool, NoMemory>
    ensures { IfOk result (λ b. b ≡ has_main_in (context_tree c.now)) }
{
    let main = Name::new(alloc, b"main")?;
    Ok(has_body(c.find(&main)))
}

/// The first cause of a refusal that a walk shows, where this is known behind it.
fn late_fault(
    alloc: Global,
    unit: &Unit,
    c: &Context,
    walk: &Walk,
) -> Result<Option<TypeFault>, NoMemory>
    ensures { IfOk result (IsLate c.now walk.now unit.now) }
{
    if let Some(f) = walk.found.least {
        return Ok(Some(TypeFault::Rule(f.node, f.rule)));
    }
    if !has_main(alloc, c)? {
        return Ok(Some(TypeFault::NoMain));
    }
    if let Some(node) = first_undefined(alloc, c, &walk.noted.calls, unit.declarations())? {
        return Ok(Some(TypeFault::Undefined(node)));
    }
    if let Some(node) = first_past_globals(alloc, &walk.noted)? {
        return Ok(Some(TypeFault::Limit(LimitKind::Globals, node)));
    }
    Ok(limit(LimitKind::Locals, walk.noted.local_past))
}

/// A walk over a unit, and what is known behind it.
fn walk_unit(alloc: Global, unit: &Unit) -> Result<(Context, Walk), NoMemory>
    ensures context { IfOk result (λ r. IsEnd unit.now r.0) }
    ensures walked { IfOk result (λ r. WalksUnit unit.now r.1) }
{
    let mut c = Context::new(alloc)?;
    let mut walk = Walk::new(alloc);
    walk_declarations(alloc, &mut c, unit.declarations(), &mut walk)?;
    Ok((c, walk))
}

/// The typed unit, where every node keeps the rules and the counts are within their limits; or why
/// the unit is refused: the first cause in the order of `TypeFault`, or want of memory.
#[tactic(auto, using(crate::proofs::CheckingLaws::check_told))]
pub fn check(alloc: Global, unit: &Unit) -> Result<TypedUnit, TypeFault>
    ensures unit { IfOk result (λ typed. typed_tree typed ≡ unit_tree unit.now) }
    ensures accepted { OnOk result (IsAccepted (unit_tree unit.now)) }
    ensures refused { IfErr result (λ f. IsTold (unit_tree unit.now) f) }
    ensures good { IsAccepted (unit_tree unit.now) → IfErr result (λ f. f ≡ faults.NoMemory) }
{
    if let Some(f) = early_fault(alloc, unit)? {
        return Err(f);
    }
    let (c, walk) = walk_unit(alloc, unit)?;
    if let Some(f) = late_fault(alloc, unit, &c, &walk)? {
        return Err(f);
    }
    let copy = copy_unit(alloc, unit)?;
    Ok(TypedUnit::new(copy, c, walk))
}
