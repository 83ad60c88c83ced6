// Nodes of trees: their numbers and their places.
ghost use Rattle.std.specs.Prelude.{◌≡◌, ◌+◌, ◌<◌, ◌^◌, ◌++◌, ◌∷◌, [], IfOk, OnOk, length};
ghost use Rattle.qs_syntax.specs.Numbering.{numbered};

use qs_base::NoMemory;

/// The number and the place of a node.
#[derive(Clone, Copy)]
pub struct Node {
    /// The number of the node.
    pub id: u32,
    /// The number of the token at which it stands: its first one, or its name.
    pub token: u32,
}

/// The node with the next number, where `tokens` has the token of each node before it.
pub fn number_node(node: Node, tokens: &mut Vec<u32>) -> Result<Node, NoMemory>
    requires { length tokens.old.items + 1 < 2 ^ 32 }
    ensures node { IfOk result (λ to. to ≡ numbered.label (length tokens.old.items) node) }
    ensures end { OnOk result (length tokens.new.items ≡ length tokens.old.items + 1) }
    ensures tokens { OnOk result (tokens.new.items ≡ tokens.old.items ++ node.token ∷ []) }
{
    let id = tokens.len() as u32;
    tokens.push(node.token)?;
    Ok(Node {
        id,
        token: node.token,
    })
}
