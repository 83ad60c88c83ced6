// How names are declared and found.
ghost use Rattle.std.specs.Prelude.{◌≡◌, ◌≤◌, ◌<◌, [], length, OnOk};
ghost use Rattle.qs_types.specs.Contexts.{lookup};
ghost use Rattle.qs_typing_findings.specs.EntityOf.{entity_at};
ghost use Rattle.qs_typing_findings.specs.Bindings.{newest_first, place_in, without_latest};
ghost use Rattle.qs_typing_findings.specs.ScopesOf.{AddsName, all_bindings, inner_bindings, outer_bindings};

use super::Scopes;
use crate::entity::{Binding, Entity};
use indexmap::IndexMap;
use qs_base::{Name, NoMemory};
use std::alloc::Global;

impl Scopes {
    /// No name yet.
    pub fn new(alloc: Global) -> Scopes
        ensures inner { inner_bindings result ≡ [] }
        ensures outer { outer_bindings result ≡ [] }
    {
        Scopes {
            bindings: Vec::new(alloc),
            places: IndexMap::new(alloc),
            start: 0,
        }
    }

    fn place_of(&self, name: &Name) -> Option<usize>
        ensures { result ≡ place_in name.now (newest_first self.now.bindings.items) }
    {
        *self.places.get(name)?
    }

    /// What a name stands for: its latest declaration in scope (C11 6.2.1p4).
    pub fn find(&self, name: &Name) -> Option<&Entity>
        ensures { entity_at result ≡ lookup name.now (all_bindings self.now) }
    {
        let place = self.place_of(name)?;
        Some(&self.bindings[place].entity)
    }

    /// What a name stands for that is declared in the innermost scope.
    pub fn find_here(&self, name: &Name) -> Option<&Entity>
        ensures { entity_at result ≡ lookup name.now (inner_bindings self.now) }
    {
        let place = self.place_of(name)?;
        if place < self.start {
            None
        } else {
            Some(&self.bindings[place].entity)
        }
    }

    /// Declares a name in the innermost scope.
    pub fn declare(&mut self, alloc: Global, name: Name, entity: Entity) -> Result<(), NoMemory>
        ensures inner { OnOk result (AddsName name entity self.old self.new) }
        ensures outer { OnOk result (outer_bindings self.new ≡ outer_bindings self.old) }
    {
        let key = name.copy(alloc)?;
        let hidden = self.place_of(&name);
        let place = self.bindings.len();
        self.bindings.push(Binding {
            name,
            entity,
            hidden,
        })?;
        match self.places.insert(key, Some(place)) {
            Ok(_) => Ok(()),
            Err(_) => {
                self.bindings.pop();
                Err(NoMemory)
            }
        }
    }

    /// Begins a scope, and tells where the one around it begins.
    pub fn enter(&mut self) -> usize
        ensures start { result ≡ length (outer_bindings self.old) }
        ensures inner { inner_bindings self.new ≡ [] }
        ensures outer { outer_bindings self.new ≡ all_bindings self.old }
    {
        let start = self.start;
        self.start = self.bindings.len();
        start
    }

    /// Ends the innermost scope, where the one around it begins at this place.
    pub fn leave(&mut self, start: usize)
        requires { start ≤ length (outer_bindings self.old) }
        ensures names { all_bindings self.new ≡ outer_bindings self.old }
        ensures start { length (outer_bindings self.new) ≡ start }
    {
        while self.bindings.len() > self.start {
            self.forget_latest();
        }
        self.start = start;
    }

    fn forget_latest(&mut self)
        requires { self.old.start < length self.old.bindings.items }
        ensures start { self.new.start ≡ self.old.start }
        ensures bindings { self.new.bindings.items ≡ without_latest self.old.bindings.items }
    {
        if let Some(binding) = self.bindings.pop() {
            match self.places.insert(binding.name, binding.hidden) {
                Ok(_) => {}
                Err(_) => unreachable!(),
            }
        }
    }
}
