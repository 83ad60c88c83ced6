// The names of types (C11 6.7.2.3, 6.7.8).
ghost use Rattle.std.specs.Prelude.{◌≡◌, None, OnOk, is_some, option_map};
ghost use Rattle.qs_types.specs.Contexts.{named_in, no_type_names, place_of, type_in};
ghost use Rattle.qs_types.specs.KnownTypes.{is_known_base};
ghost use Rattle.qs_types.specs.NamesChanged.{AddsTag, AddsType};
ghost use Rattle.qs_types.specs.TypeNamesOf.{names_tree, type_at};
ghost use Rattle.qs_types.specs.TypeOf.{type_tree};

use crate::types::CType;
use indexmap::IndexMap;
use qs_base::{Name, NoMemory};
use qs_syntax::Base;
use std::alloc::Global;

/// The tags with the numbers of their structs, and the names that `typedef` declares with their
/// types; no type where the declaration breaks a rule on types.
#[derive(Drop)]
pub struct TypeNames {
    tags: IndexMap<Name, u32>,
    types: IndexMap<Name, Option<CType>>,
}

impl TypeNames {
    /// No name yet.
    pub fn new(alloc: Global) -> TypeNames
        ensures { names_tree result ≡ no_type_names }
    {
        TypeNames {
            tags: IndexMap::new(alloc),
            types: IndexMap::new(alloc),
        }
    }

    /// The number of the struct with this tag (C11 6.7.2.3).
    #[tactic(auto, using(crate::proofs::NameLookups::tag_found))]
    pub fn tag_place(&self, tag: &Name) -> Option<u32>
        ensures { result ≡ place_of tag.now (names_tree self.now).tags }
    {
        Some(*self.tags.get(tag)?)
    }

    /// What a `typedef` declares under a name (C11 6.7.8).
    #[tactic(auto, using(crate::proofs::NameLookups::type_found))]
    pub fn find(&self, x: &Name) -> Option<&Option<CType>>
        ensures { type_at result ≡ named_in x.now (names_tree self.now).types }
    {
        self.types.get(x)
    }

    /// Whether a `typedef` declares the name.
    pub fn is_type_name(&self, x: &Name) -> bool
        ensures { result ≡ is_some (named_in x.now (names_tree self.now).types) }
    {
        self.find(x).is_some()
    }

    /// The type that a name stands for.
    pub fn type_of(&self, x: &Name) -> Option<&CType>
        ensures { option_map (λ t. type_tree t.now) result ≡ type_in x.now (names_tree self.now) }
    {
        self.find(x)?.as_ref()
    }

    /// Whether a declaration may begin with this type: a struct whose tag is declared, a type name
    /// that has a type, or neither.
    pub fn knows(&self, base: &Base) -> bool
        ensures { result ≡ is_known_base (names_tree self.now) base.now }
    {
        match base {
            Base::Void => true,
            Base::Int => true,
            Base::Unsigned => true,
            Base::Char => true,
            Base::Struct(tag) => self.tag_place(tag).is_some(),
            Base::Named(x) => self.type_of(x).is_some(),
        }
    }

    /// Adds a tag that is new, with the number of its struct.
    #[tactic(auto, using(crate::proofs::NameLookups::tag_added))]
    pub fn add_tag(&mut self, tag: Name, place: u32) -> Result<(), NoMemory>
        requires { place_of tag (names_tree self.old).tags ≡ None }
        ensures { OnOk result (AddsTag tag place self.old self.new) }
    {
        self.tags.insert(tag, place)?;
        Ok(())
    }

    /// Adds a type name that is new.
    #[tactic(auto, using(crate::proofs::NameLookups::type_added))]
    pub fn add_type(&mut self, x: Name, t: Option<CType>) -> Result<(), NoMemory>
        requires { named_in x (names_tree self.old).types ≡ None }
        ensures { OnOk result (AddsType x t self.old self.new) }
    {
        self.types.insert(x, t)?;
        Ok(())
    }
}
