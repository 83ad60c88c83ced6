// The structs of a unit.
ghost use Rattle.std.specs.Prelude.{◌≡◌, ℕ, map};
ghost use Rattle.qs_types.specs.Layout.{layout_of};
ghost use Rattle.qs_types.specs.StructsOf.{structs_tree, kept_layouts, has_members, has_layout};

mod methods;

use crate::structs::StructType;

/// The structs of a unit, in the order in which the text first declares them, each with the layout
/// of its members.
#[derive(Drop)]
pub struct Env {
    structs: Vec<StructType>,
    ghost laid_out: { (k : ℕ) →
        kept_layouts structs.items k ≡ layout_of (structs_tree structs.items) k },
    ghost whole: { map has_layout structs.items ≡ map has_members structs.items },
}
