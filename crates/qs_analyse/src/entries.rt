// The entries that are added.
ghost use Rattle.std.specs.Prelude.{◌≡◌, ◌<◌, ◌++◌, ◌∷◌, [], IfOk, OnOk, length};
ghost use Rattle.std.specs.List.{list_any};
ghost use Rattle.qs_core.specs.UnitTrees.{unit_tree};
ghost use Rattle.qs_triples.specs.Filled as filled;
ghost use Rattle.qs_callgraph.specs.CallLists.{AreBelow, numbers};
ghost use Rattle.qs_analyse.specs.Fillable.{AddsEntries, GivesEntry, added_entry, open_entry};
ghost use Rattle.qs_analyse.specs.Fillable.{path_entry_of, proofs_of};
ghost use Rattle.qs_analyse.specs.Needs.{FindsPre, GivesItems, is_variable_head};
ghost use Rattle.qs_analyse.specs.Needs.{is_variable_node, one_says_nothing, path_needs};

use crate::needs::{call_part, greatest, put_part};
use crate::written::{Needs, all_written};
use qs_assert::{Assertion, Node, Room, TermNode};
use qs_base::{FnId, NoMemory};
use qs_callgraph::called_by;
use qs_core::CoreUnit;
use qs_entail::Certificate;
use qs_triples::{Derivation, FunctionProof, Spec};
use std::alloc::Global;

// ---- preconditions

fn is_variable_head(head: TermNode) -> bool
    ensures { result ≡ is_variable_head head }
{
    match head {
        TermNode::Variable(_) => true,
        TermNode::Number(_) => false,
        TermNode::Add(_) => false,
        TermNode::Sub => false,
        TermNode::Mul(_) => false,
        TermNode::Div(_) => false,
        TermNode::WrapUnsigned => false,
        TermNode::WrapSigned => false,
        TermNode::Bits => false,
    }
}

fn is_variable(node: &Node) -> bool
    ensures { result ≡ is_variable_node node.now }
{
    match node {
        Node::Term(head) => is_variable_head(*head),
        Node::Condition(_) => false,
        Node::Assertion(_) => false,
    }
}

fn some_variable(nodes: &[Node]) -> bool
    ensures { result ≡ list_any is_variable_node nodes.now }
{
    nodes.iter().any(|node| is_variable(node))
}

fn has_variables(a: &Assertion) -> bool
    ensures { result ≡ filled.has_variables a.now }
{
    some_variable(a.nodes())
}

fn is_useless(alloc: Global, a: &Assertion) -> Result<bool, NoMemory>
    ensures { IfOk result (λ answer. answer ≡ filled.is_useless a.now) }
{
    let infinity = Assertion::infinity(alloc)?;
    Ok(has_variables(a) || a.same(&infinity))
}

// The precondition of a function's entry.
fn pre_of(entries: &[FunctionProof], g: FnId) -> Option<&Assertion>
    ensures { FindsPre (proofs_of entries.now) g.0 result }
{
    for e in entries {
        if e.function.0 == g.0 {
            return Some(&e.spec.pre);
        }
    }
    None
}

// Whether what a function needs says nothing to those who call it without a derivation.
fn says_nothing(alloc: Global, entries: &[FunctionProof], g: FnId) -> Result<bool, NoMemory>
    ensures { IfOk result (λ b. b ≡ filled.is_useless (filled.pre_of (proofs_of entries.now) g.0)) }
{
    match pre_of(entries, g) {
        None => Ok(true),
        Some(a) => is_useless(alloc, a),
    }
}

fn one_says_nothing(
    alloc: Global,
    entries: &[FunctionProof],
    callees: &[FnId],
) -> Result<bool, NoMemory>
    ensures { IfOk result (λ b. b ≡ one_says_nothing entries.now callees.now) }
{
    for g in callees {
        if says_nothing(alloc, entries, *g)? {
            return Ok(true);
        }
    }
    Ok(false)
}

// A copy, if there is room for its nodes.
fn copy_within(alloc: Global, room: &mut Room, a: &Assertion) -> Result<Assertion, NoMemory>
    ensures { IfOk result (λ copy. copy ≡ a.now) }
{
    room.take(a.nodes().len())?;
    a.copy(alloc)
}

fn copied_pre(
    alloc: Global,
    room: &mut Room,
    entries: &[FunctionProof],
    g: FnId,
) -> Result<Assertion, NoMemory>
    ensures { IfOk result (λ a. a ≡ filled.pre_of (proofs_of entries.now) g.0) }
{
    match pre_of(entries, g) {
        None => Assertion::infinity(alloc),
        Some(a) => copy_within(alloc, room, a),
    }
}

// What calls of these need, by their preconditions.
fn needed_calls(
    alloc: Global,
    room: &mut Room,
    entries: &[FunctionProof],
    callees: &[FnId],
) -> Result<Vec<Assertion>, NoMemory>
    ensures { GivesItems result (path_needs entries.now callees.now) }
{
    let mut parts = Vec::new(alloc);
    for g in callees {
        let need = copied_pre(alloc, room, entries, *g)?;
        put_part(&mut parts, call_part(alloc, *g, need)?)?;
    }
    Ok(parts)
}

fn path_pre(
    alloc: Global,
    room: &mut Room,
    entries: &[FunctionProof],
    callees: &[FnId],
) -> Result<Assertion, NoMemory>
    ensures { IfOk result (λ a. a ≡ filled.path_pre (proofs_of entries.now) (numbers callees.now)) }
{
    if one_says_nothing(alloc, entries, callees)? {
        return Assertion::infinity(alloc);
    }
    let parts = needed_calls(alloc, room, entries, callees)?;
    greatest(alloc, parts)
}

// ---- entries

fn open_entry(alloc: Global, unit: &CoreUnit, f: FnId) -> Result<FunctionProof, NoMemory>
    requires { f.0 < length unit.now.functions.items }
    ensures { GivesEntry result (open_entry (unit_tree unit.now) f.0) }
{
    let callees = called_by(alloc, unit, f)?;
    let function = &unit.functions[f.0 as usize];
    let needs = Needs {
        name: &function.name,
        callees: &callees,
    };
    let parts = all_written(alloc, needs, &function.body)?;
    let pre = Assertion::named(alloc, &function.name)?;
    let post = Assertion::named(alloc, &function.name)?;
    Ok(FunctionProof {
        function: f,
        spec: Spec { pre, post },
        entry: Certificate::Same,
        body: Derivation::Sequence(parts),
    })
}

fn path_entry(
    alloc: Global,
    room: &mut Room,
    unit: &CoreUnit,
    entries: &[FunctionProof],
    f: FnId,
) -> Result<FunctionProof, NoMemory>
    requires { f.0 < length unit.now.functions.items }
    ensures { GivesEntry result (path_entry_of unit.now entries.now f.0) }
{
    let callees = called_by(alloc, unit, f)?;
    let pre = path_pre(alloc, room, entries, &callees)?;
    let post = copy_within(alloc, room, &pre)?;
    Ok(FunctionProof {
        function: f,
        spec: Spec { pre, post },
        entry: Certificate::Same,
        body: Derivation::Leaf,
    })
}

fn entry_for(
    alloc: Global,
    room: &mut Room,
    unit: &CoreUnit,
    is_open: &[bool],
    entries: &[FunctionProof],
    f: FnId,
) -> Result<FunctionProof, NoMemory>
    requires within { f.0 < length unit.now.functions.items }
    requires as_many { length is_open.now ≡ length unit.now.functions.items }
    ensures { GivesEntry result (added_entry unit.now is_open.now entries.now f.0) }
{
    if is_open[f.0 as usize] {
        open_entry(alloc, unit, f)
    } else {
        path_entry(alloc, room, unit, entries, f)
    }
}

fn put_entry(entries: &mut Vec<FunctionProof>, e: FunctionProof) -> Result<(), NoMemory>
    ensures { OnOk result (entries.new.items ≡ entries.old.items ++ e ∷ []) }
{
    entries.push(e)?;
    Ok(())
}

/// Adds an entry for each of these functions, callees before callers.
pub fn add_entries(
    alloc: Global,
    room: &mut Room,
    unit: &CoreUnit,
    is_open: &[bool],
    fs: &[FnId],
    entries: &mut Vec<FunctionProof>,
) -> Result<(), NoMemory>
    requires within { AreBelow (numbers fs.now) (length unit.now.functions.items) }
    requires as_many { length is_open.now ≡ length unit.now.functions.items }
    ensures { OnOk result (AddsEntries unit.now is_open.now fs.now entries.old entries.new) }
{
    for f in fs {
        let entry = entry_for(alloc, room, unit, is_open, entries, *f)?;
        put_entry(entries, entry)?;
    }
    Ok(())
}
