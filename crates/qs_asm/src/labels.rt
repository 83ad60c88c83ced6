// Where labels stand.
ghost use Rattle.std.specs.Prelude.{◌≡◌, ◌+◌, IfOk, OnOk};
ghost use Rattle.qs_asm.specs.Sizing as spec;
ghost use Rattle.qs_asm.specs.Assembly.{places, Notes, AreLabels};

use crate::sized_item::SizedItem;
use qs_base::{NoMemory, sum};
use std::alloc::Global;
use std::collections::HashMap;

/// The offsets of labels in bytes, by their numbers.
pub type Labels = HashMap<u32, u32>;

/// The bytes of an item.
pub fn item_bytes(item: &SizedItem) -> u32
    ensures { result ≡ spec.item_bytes item.now }
{
    match item {
        SizedItem::Plain(_) => 4,
        SizedItem::Label(_) => 0,
        SizedItem::Jump(_, _) => 4,
        SizedItem::Short(_, _, _, _) => 4,
        SizedItem::Long(_, _, _, _) => 8,
    }
}

fn note(labels: &mut Labels, from: u32, item: &SizedItem) -> Result<(), NoMemory>
    ensures { OnOk result (Notes (places labels.old) (places labels.new) from item.now) }
{
    match item {
        SizedItem::Plain(_) => {}
        SizedItem::Label(label) => {
            labels.insert(*label, from)?;
        }
        SizedItem::Jump(_, _) => {}
        SizedItem::Short(_, _, _, _) => {}
        SizedItem::Long(_, _, _, _) => {}
    }
    Ok(())
}

/// Where the labels stand among the items: how many bytes before them.
#[tactic(auto, using(crate::proofs::AssemblyLaws::label_steps))]
pub fn labels_among(alloc: Global, items: &[SizedItem]) -> Result<Labels, NoMemory>
    ensures { IfOk result (λ labels. AreLabels (places labels) items.now) }
{
    let mut labels = HashMap::new(alloc);
    let mut from = 0;
    for item in items {
        note(&mut labels, from, item)?;
        from = sum(from, item_bytes(item))?;
    }
    Ok(labels)
}
