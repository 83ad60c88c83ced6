// How units are made and read.
ghost use Rattle.std.specs.Prelude.{◌≡◌, ◌<◌, ◌^◌, map, IfOk};
ghost use Rattle.qs_syntax.specs.TreeOf.{decl_tree};
ghost use Rattle.qs_syntax.specs.UnitTrees.{unit_tree};
ghost use Rattle.qs_syntax.specs.Nodes.{StandsAt, unit_count};
ghost use Rattle.qs_syntax.specs.Numbering.{numbered_unit};
ghost use Rattle.qs_syntax.specs.Units.{IsRead};

use super::Unit;
use crate::units::{Decl, number_owned_decls};
use qs_base::NoMemory;
use std::alloc::Global;

impl Unit {
    /// What stands at file scope.
    pub fn declarations(&self) -> &[Decl]
        ensures { map decl_tree result.now ≡ unit_tree self.now }
    {
        &self.declarations
    }

    /// The count of the nodes.
    #[tactic(auto, using(crate::proofs::UnitLaws::count_of_unit))]
    pub fn nodes(&self) -> u32
        ensures { result ≡ unit_count (unit_tree self.now) }
    {
        self.tokens.len() as u32
    }

    /// The number of the first token of the node with this number.
    #[tactic(auto, using(crate::proofs::UnitLaws::count_of_unit))]
    pub fn token_of(&self, node: u32) -> u32
        requires { node < unit_count (unit_tree self.now) }
        ensures { StandsAt (unit_tree self.now) node result }
    {
        self.tokens[node as usize]
    }

    /// The unit with copies in the place of what stands at file scope.
    pub fn with_copies(&self, alloc: Global, declarations: Vec<Decl>) -> Result<Unit, NoMemory>
        requires { map decl_tree declarations.items ≡ unit_tree self.now }
        ensures { IfOk result (λ to. unit_tree to ≡ unit_tree self.now) }
    {
        Ok(Unit {
            declarations,
            tokens: Vec::from_slice(alloc, &self.tokens)?,
        })
    }
}

/// The unit of these trees, which are given without numbers. Their nodes are numbered where they
/// stand.
pub fn numbered(alloc: Global, unnumbered: Vec<Decl>) -> Result<Unit, NoMemory>
    requires read { IsRead (numbered_unit (map decl_tree unnumbered.items)) }
    requires few { unit_count (map decl_tree unnumbered.items) < 2 ^ 32 }
    ensures { IfOk result (λ to. unit_tree to ≡ numbered_unit (map decl_tree unnumbered.items)) }
{
    let mut tokens = Vec::new(alloc);
    let declarations = number_owned_decls(unnumbered, &mut tokens)?;
    Ok(Unit {
        declarations,
        tokens,
    })
}
