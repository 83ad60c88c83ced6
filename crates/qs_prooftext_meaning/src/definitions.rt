// The definitions of a file so far, and an index of their names.
ghost use Rattle.qs_prooftext_meaning.specs.Definitions.{IsIndexOf};

use indexmap::IndexSet;
use qs_assert::{Assertion, Define};
use qs_base::{Name, NoMemory};
use std::alloc::Global;

/// The definitions of a file so far. Their names are indexed, so that one is found without going
/// over them all.
#[derive(Drop)]
pub struct Definitions {
    /// the definitions, in the order in which they were added
    pub defines: Vec<Define>,
    names: IndexSet<Vec<u8>>,
    ghost indexed: { IsIndexOf names.keys defines.items },
}

impl Definitions {
    ghost use Rattle.std.specs.Prelude.{◌≡◌, ◌++◌, ◌∷◌, [], OnOk};
    ghost use Rattle.qs_prooftext_meaning.specs.Definitions.{names_one_of};

    /// No definitions.
    pub fn new(alloc: Global) -> Definitions
        ensures { result.defines.items ≡ [] }
    {
        Definitions {
            defines: Vec::new(alloc),
            names: IndexSet::new(alloc),
        }
    }

    /// Whether one of them has this name.
    pub fn has(&self, word: &[u8]) -> bool
        ensures { result ≡ names_one_of self.now.defines.items word.now }
    {
        self.names.contains(word)
    }

    /// Adds a definition behind the others. Nothing stops it but want of memory.
    pub fn add(&mut self, alloc: Global, define: Define) -> Result<(), NoMemory>
        ensures { OnOk result (self.new.defines.items ≡ self.old.defines.items ++ define ∷ []) }
    {
        let key = Vec::from_slice(alloc, define.name.bytes())?;
        self.names.reserve(1)?;
        self.defines.push(define)?;
        self.names.insert(key).unwrap();
        Ok(())
    }

    /// The definitions, in the order in which they were added.
    pub fn into_defines(self) -> Vec<Define>
        ensures { result ≡ self.defines }
    {
        self.defines
    }
}
