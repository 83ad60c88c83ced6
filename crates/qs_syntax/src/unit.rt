// A whole source as trees.
ghost use Rattle.std.specs.Prelude.{◌≡◌, ◌<◌, ◌^◌, length, map};
ghost use Rattle.qs_syntax.specs.TreeOf.{decl_tree};
ghost use Rattle.qs_syntax.specs.Nodes.{tokens_of, unit_nodes};
ghost use Rattle.qs_syntax.specs.Units.{IsRead, IsNumbered};

mod methods;

use crate::units::Decl;
pub use methods::numbered;

/// A whole source (C11 6.9): what stands at file scope, in the order of the text, with the nodes
/// numbered from 0 in that order, a node before its parts.
#[derive(Drop)]
pub struct Unit {
    declarations: Vec<Decl>,
    tokens: Vec<u32>,
    ghost is_read: { IsRead (map decl_tree declarations.items) },
    ghost is_numbered: { IsNumbered (map decl_tree declarations.items) },
    ghost few: { length tokens.items < 2 ^ 32 },
    ghost known: { tokens.items ≡ tokens_of (unit_nodes (map decl_tree declarations.items)) },
}
