// How structs are declared and defined.
ghost use Rattle.std.specs.Prelude.{◌≡◌, ◌++◌, ◌∷◌, [], None, Some, IfOk, OnOk, OnErr, length, option_map};
ghost use Rattle.std.specs.List.{slice_get};
ghost use Rattle.qs_types.specs.Layout.{layout_of};
ghost use Rattle.qs_types.specs.StructsOf.{structs_tree, layout_tree};
ghost use Rattle.qs_types.specs.Defining.{GivesMembers, IsSized};
ghost use Rattle.qs_types.specs.EnvOf.{env_tree};

use super::Env;
use crate::layout::members_layout;
use crate::structs::{StructLayout, StructType};
use crate::types::CType;
use indexmap::IndexMap;
use qs_base::{Name, NoMemory};
use std::alloc::Global;

impl Env {
    /// No struct yet.
    pub fn new(alloc: Global) -> Env
        ensures { env_tree result ≡ [] }
    {
        Env {
            structs: Vec::new(alloc),
        }
    }

    /// The structs, in the order of their first declarations.
    pub fn structs(&self) -> &[StructType]
        ensures { structs_tree result.now ≡ env_tree self.now }
    {
        &self.structs
    }

    /// The layout of a struct, if it has members.
    pub fn layout_of(&self, k: u32) -> Option<&StructLayout>
        ensures { option_map (λ l. layout_tree l.now) result ≡ layout_of (env_tree self.now) k }
    {
        self.layout_at(k as usize)
    }

    /// The layout of the struct at a place, if it has members.
    pub fn layout_at(&self, place: usize) -> Option<&StructLayout>
        ensures { option_map (λ l. layout_tree l.now) result ≡ layout_of (env_tree self.now) place }
    {
        self.structs.get(place)?.layout.as_ref()
    }

    /// The number that the next struct gets, if it fits.
    #[tactic(auto, using(crate::proofs::NameLookups::as_many))]
    pub fn next(&self) -> Result<u32, NoMemory>
        ensures { IfOk result (λ k. k ≡ length (env_tree self.now)) }
    {
        if self.structs.len() > u32::MAX as usize {
            return Err(NoMemory);
        }
        Ok(self.structs.len() as u32)
    }

    /// Declares one more struct, without members (C11 6.7.2.3).
    pub fn declare(&mut self) -> Result<(), NoMemory>
        ensures declared { OnOk result (env_tree self.new ≡ env_tree self.old ++ None ∷ []) }
        ensures kept { OnErr result (env_tree self.new ≡ env_tree self.old) }
    {
        self.structs.push(StructType {
            members: None,
            layout: None,
        })?;
        Ok(())
    }

    /// Gives a struct that has no members yet its members (C11 6.7.2.1), if each member and the
    /// whole have a size within the limit, and tells whether they have.
    pub fn define(
        &mut self,
        alloc: Global,
        k: u32,
        members: IndexMap<Name, CType>,
    ) -> Result<bool, NoMemory>
        requires { slice_get (env_tree self.old) k ≡ Some None }
        ensures told { IfOk result (IsSized self.old members.entries) }
        ensures defined { IfOk result (λ d. GivesMembers k members.entries d self.old self.new) }
        ensures kept { OnErr result (env_tree self.new ≡ env_tree self.old) }
    {
        match members_layout(alloc, self, &members)? {
            None => Ok(false),
            Some(layout) => {
                self.structs[k as usize] = StructType {
                    members: Some(members),
                    layout: Some(layout),
                };
                Ok(true)
            }
        }
    }
}
