// The words of items.
ghost use Rattle.std.specs.Prelude.{◌≡◌, ◌<◌, ◌^◌, All, IfOk, OnOk, IfErr, Some, map};
ghost use Rattle.qs_isa.specs.Table.{decode_of};
ghost use Rattle.qs_asm.specs.Items as items;
ghost use Rattle.qs_asm.specs.Assembly as spec;
ghost use Rattle.qs_asm.specs.Assembly.{places, item_code_by, Appends};

use crate::fault::AssemblyFault;
use crate::item::Item;
use crate::labels::{Labels, item_bytes, labels_among};
use crate::sized_item::SizedItem;
use crate::sizing::{branch_distance, sized_items};
use qs_base::{NoMemory, add32, sub32, sum};
use qs_isa::{BranchKind, BranchOffset, Instr, JumpOffset, Register, encode};
use std::alloc::Global;

// ---- one item

fn inverse(kind: BranchKind) -> BranchKind
    ensures { result ≡ items.inverse kind }
{
    match kind {
        BranchKind::Beq => BranchKind::Bne,
        BranchKind::Bne => BranchKind::Beq,
        BranchKind::Blt => BranchKind::Bge,
        BranchKind::Bge => BranchKind::Blt,
        BranchKind::Bltu => BranchKind::Bgeu,
        BranchKind::Bgeu => BranchKind::Bltu,
    }
}

fn is_reached(distance: u32) -> bool
    ensures { result ≡ spec.is_reached distance }
{
    add32(distance, 1 << 20) < 1 << 21 && distance % 2 == 0
}

fn distance_to(labels: &Labels, from: u32, label: u32) -> Option<JumpOffset>
    ensures { result ≡ spec.distance_to from (places labels.now label) }
{
    let distance = sub32(*labels.get(&label)?, from);
    if is_reached(distance) {
        Some(JumpOffset::new(distance))
    } else {
        None
    }
}

fn is_at(labels: &Labels, from: u32, label: u32) -> bool
    ensures { spec.label_code from (places labels.now label) ≡ spec.nothing_if result }
{
    match labels.get(&label) {
        None => false,
        Some(place) => *place == from,
    }
}

fn put_jump(
    code: &mut Vec<Instr>,
    rd: Register,
    distance: Option<JumpOffset>,
) -> Result<(), AssemblyFault>
    ensures ok { OnOk result (Appends code.old code.new (spec.jump_code rd distance)) }
    ensures fault { IfErr result (spec.BadLabelIsNoCode (spec.jump_code rd distance)) }
{
    match distance {
        None => Err(AssemblyFault::BadLabel),
        Some(offset) => {
            code.push(Instr::Jal { rd, offset })?;
            Ok(())
        }
    }
}

fn put_short(
    code: &mut Vec<Instr>,
    kind: BranchKind,
    rs1: Register,
    rs2: Register,
    distance: Option<BranchOffset>,
) -> Result<(), AssemblyFault>
    ensures ok { OnOk result (Appends code.old code.new (spec.short_code kind rs1 rs2 distance)) }
    ensures fault { IfErr result (spec.BadLabelIsNoCode (spec.short_code kind rs1 rs2 distance)) }
{
    match distance {
        None => Err(AssemblyFault::BadLabel),
        Some(offset) => {
            code.push(Instr::Branch {
                kind,
                rs1,
                rs2,
                offset,
            })?;
            Ok(())
        }
    }
}

fn put_long(
    code: &mut Vec<Instr>,
    kind: BranchKind,
    rs1: Register,
    rs2: Register,
    distance: Option<JumpOffset>,
) -> Result<(), AssemblyFault>
    ensures ok { OnOk result (Appends code.old code.new (spec.long_code kind rs1 rs2 distance)) }
    ensures fault { IfErr result (spec.BadLabelIsNoCode (spec.long_code kind rs1 rs2 distance)) }
{
    match distance {
        None => Err(AssemblyFault::BadLabel),
        Some(offset) => {
            code.push(Instr::Branch {
                kind: inverse(kind),
                rs1,
                rs2,
                offset: BranchOffset::new(8),
            })?;
            code.push(Instr::Jal {
                rd: Register::ZERO,
                offset,
            })?;
            Ok(())
        }
    }
}

fn put_item(
    code: &mut Vec<Instr>,
    labels: &Labels,
    from: u32,
    item: &SizedItem,
) -> Result<(), AssemblyFault>
    ensures ok { OnOk result (Appends code.old code.new (item_code_by labels.now from item.now)) }
    ensures fault { IfErr result (spec.BadLabelIsNoCode (item_code_by labels.now from item.now)) }
{
    match item {
        SizedItem::Plain(i) => {
            code.push(*i)?;
            Ok(())
        }
        SizedItem::Label(label) => {
            if is_at(labels, from, *label) {
                Ok(())
            } else {
                Err(AssemblyFault::BadLabel)
            }
        }
        SizedItem::Jump(rd, label) => put_jump(code, *rd, distance_to(labels, from, *label)),
        SizedItem::Short(kind, rs1, rs2, label) => {
            let distance = branch_distance(labels, from, *label);
            put_short(code, *kind, *rs1, *rs2, distance)
        }
        SizedItem::Long(kind, rs1, rs2, label) => {
            let distance = distance_to(labels, sum(from, 4)?, *label);
            put_long(code, *kind, *rs1, *rs2, distance)
        }
    }
}

// ---- all items

#[tactic(auto, using(crate::proofs::AssemblyLaws::code_goes_on))]
fn instructions(
    alloc: Global,
    labels: &Labels,
    items: &[SizedItem],
) -> Result<Vec<Instr>, AssemblyFault>
    ensures ok { IfOk result (spec.IsCode (spec.code_by labels.now items.now)) }
    ensures fault { IfErr result (spec.BadLabelIsNoCode (spec.code_by labels.now items.now)) }
{
    let mut code = Vec::new(alloc);
    let mut from = 0;
    for item in items {
        put_item(&mut code, labels, from, item)?;
        from = sum(from, item_bytes(item))?;
    }
    Ok(code)
}

fn words(alloc: Global, code: &[Instr]) -> Result<Vec<u32>, NoMemory>
    ensures words { IfOk result (λ words. map decode_of words.items ≡ map Some code.now) }
    ensures small { IfOk result (λ words. All (λ word. word < 2 ^ 32) words.items) }
{
    let mut all = Vec::new(alloc);
    for i in code {
        all.push(encode(i))?;
    }
    Ok(all)
}

/// The words of the items, one after the other: each branch as itself where it reaches its label,
/// else inverted over a jump to it. Where they lie, the items lie. `BadLabel` exactly where there
/// are none.
#[tactic(auto, using(crate::proofs::AssemblyLaws::assembly_cases))]
pub fn assemble(alloc: Global, items: &[Item]) -> Result<Vec<u32>, AssemblyFault>
    ensures ok { IfOk result (λ words. spec.IsAssembly items.now words.items) }
    ensures small { IfOk result (λ words. All (λ word. word < 2 ^ 32) words.items) }
    ensures fault { IfErr result (spec.BadLabelIsNoCode (spec.assembled items.now)) }
{
    let sized = sized_items(alloc, items)?;
    let labels = labels_among(alloc, &sized)?;
    let code = instructions(alloc, &labels, &sized)?;
    Ok(words(alloc, &code)?)
}
