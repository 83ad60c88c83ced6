// How long branches are.
ghost use Rattle.std.specs.Prelude.{◌≡◌, ◌++◌, ◌∷◌, [], IfOk, OnOk};
ghost use Rattle.qs_asm.specs.Sizing as spec;
ghost use Rattle.qs_asm.specs.Assembly.{places, AreOffsets};

use crate::item::Item;
use crate::labels::{Labels, item_bytes, labels_among};
use crate::sized_item::SizedItem;
use qs_base::{NoMemory, add32, sub32, sum};
use qs_isa::BranchOffset;
use std::alloc::Global;

// ---- one item

fn shortest_item(item: &Item) -> SizedItem
    ensures { result ≡ spec.shortest_item item.now }
{
    match item {
        Item::Plain(i) => SizedItem::Plain(*i),
        Item::Label(label) => SizedItem::Label(*label),
        Item::Jump(rd, label) => SizedItem::Jump(*rd, *label),
        Item::Branch(kind, rs1, rs2, label) => SizedItem::Short(*kind, *rs1, *rs2, *label),
    }
}

fn is_near(distance: u32) -> bool
    ensures { result ≡ spec.is_near distance }
{
    add32(distance, 1 << 12) < 1 << 13 && distance % 2 == 0
}

/// How far a branch goes that leads from here to the label, where it reaches it.
pub fn branch_distance(labels: &Labels, from: u32, label: u32) -> Option<BranchOffset>
    ensures { result ≡ spec.branch_distance from (places labels.now label) }
{
    let distance = sub32(*labels.get(&label)?, from);
    if is_near(distance) {
        Some(BranchOffset::new(distance))
    } else {
        None
    }
}

fn is_out_of_reach(labels: &Labels, from: u32, item: &SizedItem) -> bool
    ensures { result ≡ spec.is_out_of_reach (places labels.now) from item.now }
{
    match item {
        SizedItem::Plain(_) => false,
        SizedItem::Label(_) => false,
        SizedItem::Jump(_, _) => false,
        SizedItem::Short(_, _, _, label) => branch_distance(labels, from, *label).is_none(),
        SizedItem::Long(_, _, _, _) => false,
    }
}

fn longest_item(item: &SizedItem) -> SizedItem
    ensures { result ≡ spec.longest_item item.now }
{
    match item {
        SizedItem::Plain(i) => SizedItem::Plain(*i),
        SizedItem::Label(label) => SizedItem::Label(*label),
        SizedItem::Jump(rd, label) => SizedItem::Jump(*rd, *label),
        SizedItem::Short(kind, rs1, rs2, label) => SizedItem::Long(*kind, *rs1, *rs2, *label),
        SizedItem::Long(kind, rs1, rs2, label) => SizedItem::Long(*kind, *rs1, *rs2, *label),
    }
}

// Lengthens a branch that doesn't reach its label, and says whether it was one.
fn lengthen_item(labels: &Labels, from: u32, item: &mut SizedItem) -> bool
    ensures item { item.new ≡ spec.lengthened_item (places labels.now) from item.old }
    ensures longer { result ≡ spec.is_out_of_reach (places labels.now) from item.old }
{
    let longer = is_out_of_reach(labels, from, item);
    if longer {
        *item = longest_item(item);
    }
    longer
}

// ---- all items

fn shortest_items(alloc: Global, items: &[Item]) -> Result<Vec<SizedItem>, NoMemory>
    ensures { IfOk result (λ sized. sized.items ≡ spec.shortest_items items.now) }
{
    let mut sized = Vec::new(alloc);
    for item in items {
        sized.push(shortest_item(item))?;
    }
    Ok(sized)
}

// Lengthens the branches that don't reach their labels, and says whether there were any.
fn lengthen(labels: &Labels, items: &mut [SizedItem]) -> Result<bool, NoMemory>
    ensures items { OnOk result (items.new ≡ spec.lengthened (places labels.now) 0 items.old) }
    ensures any { IfOk result (λ any. any ≡ spec.any_out_of_reach (places labels.now) 0 items.old) }
{
    let mut any = false;
    let mut from = 0;
    for item in items.iter_mut() {
        let behind = sum(from, item_bytes(item))?;
        let longer = lengthen_item(labels, from, item);
        any = any || longer;
        from = behind;
    }
    Ok(any)
}

/// The items with the shortest branches that reach: those that don't are lengthened in turns, until
/// none is left. A turn takes time in proportion to the items, and each but the last lengthens a
/// branch.
pub fn sized_items(alloc: Global, items: &[Item]) -> Result<Vec<SizedItem>, NoMemory>
    ensures { IfOk result (λ sized. sized.items ≡ spec.sized_items items.now) }
{
    let mut sized = shortest_items(alloc, items)?;
    for _ in 0..items.len() {
        let labels = labels_among(alloc, &sized)?;
        if !lengthen(&labels, &mut sized)? {
            return Ok(sized);
        }
    }
    Ok(sized)
}

/// Where the labels stand among the words of the items: how many bytes before them.
pub fn label_offsets(alloc: Global, items: &[Item]) -> Result<Labels, NoMemory>
    ensures { IfOk result (λ labels. AreOffsets (places labels) items.now) }
{
    let sized = sized_items(alloc, items)?;
    labels_among(alloc, &sized)
}
