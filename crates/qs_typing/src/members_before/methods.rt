// How members are added.
ghost use Rattle.std.specs.Prelude.{◌≡◌, ◌≤◌, OnOk, Some};
ghost use Rattle.qs_types.specs.UnitRules as rules;
ghost use Rattle.qs_typing.specs.MembersOf.{AddsMember, AddsName, AddsTyped, HasRoomFor};
ghost use Rattle.qs_typing.specs.MembersOf.{before_tree};

use super::MembersBefore;
use indexmap::{IndexMap, IndexSet};
use qs_base::{Name, NoMemory};
use qs_types::{CType, Env, Extent, extent_of};
use std::alloc::Global;

/// Where a member ends that lies behind this end.
pub fn member_end(end: u32, extent: Extent) -> u64
    requires { 1 ≤ extent.alignment }
    ensures { result ≡ rules.member_end end extent }
{
    let alignment = u64::from(extent.alignment);
    (u64::from(end) + (alignment - 1)) / alignment * alignment + u64::from(extent.size)
}

impl MembersBefore {
    /// No member.
    pub fn new(alloc: Global) -> MembersBefore
        ensures { before_tree result ≡ rules.no_members }
    {
        MembersBefore {
            names: IndexSet::new(alloc),
            members: IndexMap::new(alloc),
            end: 0,
        }
    }

    /// Whether a member of this name stands before, also one without type.
    pub fn has_name(&self, name: &Name) -> bool
        ensures { result ≡ rules.is_name_in name.now (before_tree self.now).names }
    {
        self.names.contains(name)
    }

    fn has_member(&self, name: &Name) -> bool
        ensures { result ≡ rules.is_member name.now (before_tree self.now).members }
    {
        self.members.get(name).is_some()
    }

    fn add_name(&mut self, alloc: Global, name: &Name) -> Result<(), NoMemory>
        ensures { OnOk result (AddsName name.now self.old self.new) }
    {
        self.names.insert(name.copy(alloc)?)?;
        Ok(())
    }

    /// Adds a member of this type, if it has one; it has room.
    pub fn add(
        &mut self,
        alloc: Global,
        structs: &Env,
        name: &Name,
        t: Option<CType>,
    ) -> Result<(), NoMemory>
        requires { HasRoomFor structs.now t self.old }
        ensures { OnOk result (AddsMember structs.now name.now t self.old self.new) }
    {
        self.add_name(alloc, name)?;
        match t {
            None => Ok(()),
            Some(t) => self.add_member(alloc, structs, name, t),
        }
    }

    #[tactic(auto, using(crate::proofs::MemberDefinitions::appended))]
    fn add_member(
        &mut self,
        alloc: Global,
        structs: &Env,
        name: &Name,
        t: CType,
    ) -> Result<(), NoMemory>
        requires { HasRoomFor structs.now (Some t) self.old }
        ensures { OnOk result (AddsTyped structs.now name.now t self.old self.new) }
    {
        if self.has_member(name) {
            return Ok(());
        }
        let end = match extent_of(structs, &t) {
            None => self.end,
            Some(extent) => member_end(self.end, extent) as u32,
        };
        self.members.insert(name.copy(alloc)?, t)?;
        self.end = end;
        Ok(())
    }
}
