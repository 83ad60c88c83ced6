// How contexts are made, asked and changed.
ghost use Rattle.std.specs.Prelude.{◌≡◌, ◌≤◌, IfOk, OnOk, None, Some, [], is_some, length};
ghost use Rattle.std.specs.Prelude.{option_map};
ghost use Rattle.std.specs.List.{slice_get};
ghost use Rattle.qs_types.specs.GivenFunctions.{putchar_type, getchar_type};
ghost use Rattle.qs_types.specs.Contexts.{given_functions, pointers, start_context, entity_of};
ghost use Rattle.qs_types.specs.Contexts.{lookup, is_declared_here, inner_scope, tag_place};
ghost use Rattle.qs_types.specs.Contexts.{base_type, is_taken, is_type_name, is_void_base, starred};
ghost use Rattle.qs_types.specs.Contexts.{type_under};
ghost use Rattle.qs_types.specs.EnvOf.{env_tree};
ghost use Rattle.qs_types.specs.TypeOf.{type_tree};
ghost use Rattle.qs_types.specs.TypeNamesOf.{names_tree};
ghost use Rattle.qs_types.specs.UnitRules.{is_same_type, is_type_kept, option_place, struct_at};
ghost use Rattle.qs_types.specs.UnitRules.{with_struct, with_tag};
ghost use Rattle.qs_typing_findings.specs.EntityOf.{entity_at, signature_tree};
ghost use Rattle.qs_typing_findings.specs.Knowing.{GivesMembers, IsBase, IsSized, IsStarred, KnowsName};
ghost use Rattle.qs_typing_findings.specs.Knowing.{KnowsStruct, KnowsTypeName, SetsResult};
ghost use Rattle.qs_typing_findings.specs.PartsOf.{option_type};
ghost use Rattle.qs_typing_findings.specs.ScopesOf.{inner_bindings, outer_bindings};
ghost use Rattle.qs_typing_findings.specs.ContextOf.{around_tree, context_tree, outer_scope};
ghost use Rattle.qs_typing_findings.specs.ContextOf.{surroundings_of};

use super::{Around, Context, Labels};
use crate::entity::{Entity, Signature};
use crate::scopes::Scopes;
use crate::types::copied;
use indexmap::IndexMap;
use qs_base::{Name, NoMemory};
use qs_syntax::{Base, TypeName};
use qs_types::{CType, Env, TypeNames};
use std::alloc::Global;
use std::mem;

/// A pointer to what nests deeper is answered as want of memory: types are copied and dropped level
/// by level, on the native stack. The stars of a type name count where it is used.
const STAR_LIMIT: u32 = 10_000;

fn putchar_type(alloc: Global) -> Result<Signature, NoMemory>
    ensures { IfOk result (λ s. signature_tree s ≡ putchar_type) }
{
    let mut parameters = Vec::new(alloc);
    parameters.push(CType::Int)?;
    Ok(Signature {
        parameters,
        result: CType::Int,
    })
}

fn getchar_type(alloc: Global) -> Signature
    ensures { signature_tree result ≡ getchar_type }
{
    Signature {
        parameters: Vec::new(alloc),
        result: CType::Int,
    }
}

/// The names of `putchar` and `getchar`, which count as declared before the text.
fn given_names(alloc: Global) -> Result<Scopes, NoMemory>
    ensures inner { IfOk result (λ s. inner_bindings s ≡ given_functions) }
    ensures outer { IfOk result (λ s. outer_bindings s ≡ []) }
{
    let mut names = Scopes::new(alloc);
    let getchar = Name::new(alloc, b"getchar")?;
    names.declare(alloc, getchar, Entity::Given(getchar_type(alloc)))?;
    let putchar = Name::new(alloc, b"putchar")?;
    names.declare(alloc, putchar, Entity::Given(putchar_type(alloc)?))?;
    Ok(names)
}

/// Whether at most `room` pointers and arrays stand within one another in the type.
fn nests_within(room: u32, t: &CType) -> bool {
    match t {
        CType::Pointer(to) => room > 0 && nests_within(room - 1, to),
        CType::Array(element, _) => room > 0 && nests_within(room - 1, element),
        _ => true,
    }
}

/// A type with stars in front (C11 6.7.6.1).
#[tactic(auto, using(crate::proofs::Tags::one_star))]
fn pointers(alloc: Global, stars: u32, to: CType) -> Result<CType, NoMemory>
    ensures { IfOk result (λ t. type_tree t ≡ pointers stars (type_tree to)) }
{
    if stars > STAR_LIMIT || !nests_within(STAR_LIMIT - stars, &to) {
        return Err(NoMemory);
    }
    let mut t = to;
    for _ in 0..stars {
        t = CType::Pointer(Box::new(alloc, t)?);
    }
    Ok(t)
}

/// A type with stars behind it, where there is one.
pub fn starred(alloc: Global, base: Option<CType>, stars: u32) -> Result<Option<CType>, NoMemory>
    ensures { IfOk result (λ t. option_type t ≡ starred (option_type base) stars) }
{
    match base {
        None => Ok(None),
        Some(t) => Ok(Some(pointers(alloc, stars, t)?)),
    }
}

/// The struct at a place.
pub fn struct_at(k: Option<u32>) -> Option<CType>
    ensures { option_type result ≡ struct_at k }
{
    Some(CType::Struct(k?))
}

fn is_same_type(t: &Option<CType>, u: &Option<CType>) -> bool
    ensures { result ≡ is_same_type (option_type t.now) (option_type u.now) }
{
    match t {
        None => true,
        Some(t) => match u {
            None => true,
            Some(u) => t.same(u),
        },
    }
}

/// Whether it is `void`; no type name stands for that.
pub fn is_void_base(base: &Base) -> bool
    ensures { result ≡ is_void_base base.now }
{
    match base {
        Base::Void => true,
        Base::Int => false,
        Base::Unsigned => false,
        Base::Char => false,
        Base::Struct(_) => false,
        Base::Named(_) => false,
    }
}

impl Context {
    /// What is known before a unit.
    pub fn new(alloc: Global) -> Result<Context, NoMemory>
        ensures { IfOk result (λ c. context_tree c ≡ start_context) }
    {
        Ok(Context {
            structs: Env::new(alloc),
            type_names: TypeNames::new(alloc),
            names: given_names(alloc)?,
            result: None,
            in_loop: false,
            in_switch: false,
            labels: Labels::new(alloc),
        })
    }

    /// The structs.
    pub fn structs(&self) -> &Env
        ensures { env_tree result.now ≡ (context_tree self.now).structs }
    {
        &self.structs
    }

    /// The names of types.
    pub fn type_names(&self) -> &TypeNames
        ensures { names_tree result.now ≡ (context_tree self.now).type_names }
    {
        &self.type_names
    }

    /// The structs with the names of types.
    pub fn into_structs(self) -> (Env, TypeNames)
        ensures structs { env_tree result.0 ≡ (context_tree self).structs }
        ensures names { names_tree result.1 ≡ (context_tree self).type_names }
    {
        (self.structs, self.type_names)
    }

    /// What a name stands for (C11 6.2.1p4).
    pub fn find(&self, name: &Name) -> Option<&Entity>
        ensures { entity_at result ≡ entity_of (context_tree self.now) name.now }
    {
        self.names.find(name)
    }

    /// What a name stands for that is declared in the innermost scope.
    pub fn find_here(&self, name: &Name) -> Option<&Entity>
        ensures { entity_at result ≡ lookup name.now (context_tree self.now).inner }
    {
        self.names.find_here(name)
    }

    /// Whether a name is declared in the innermost scope.
    pub fn is_declared_here(&self, name: &Name) -> bool
        ensures { result ≡ is_declared_here (context_tree self.now) name.now }
    {
        self.names.find_here(name).is_some()
    }

    /// Whether a name that is declared here was declared before: in the innermost scope, or at file
    /// scope as a type name.
    pub fn is_taken(&self, at_file_scope: bool, name: &Name) -> bool
        ensures { result ≡ is_taken at_file_scope (context_tree self.now) name.now }
    {
        at_file_scope && self.is_type_name(name) || self.is_declared_here(name)
    }

    /// Whether a name is a type name (C11 6.7.8).
    pub fn is_type_name(&self, name: &Name) -> bool
        ensures { result ≡ is_type_name (context_tree self.now) name.now }
    {
        self.type_names.is_type_name(name)
    }

    /// Declares a name in the innermost scope (C11 6.2.1p7).
    pub fn declare(&mut self, alloc: Global, name: Name, entity: Entity) -> Result<(), NoMemory>
        ensures { OnOk result (KnowsName name entity self.old self.new) }
    {
        self.names.declare(alloc, name, entity)
    }

    /// Begins a scope, and tells what it stands in.
    pub fn enter_scope(&mut self, alloc: Global) -> Around
        ensures around { around_tree result ≡ surroundings_of (context_tree self.old) }
        ensures inside { context_tree self.new ≡ inner_scope (context_tree self.old) }
    {
        let labels = mem::replace(&mut self.labels, Labels::new(alloc));
        Around {
            names: self.names.enter(),
            in_loop: self.in_loop,
            in_switch: self.in_switch,
            labels,
        }
    }

    /// Ends the innermost scope, which stands in this.
    pub fn leave_scope(&mut self, around: Around)
        requires { around.names ≤ length (context_tree self.old).outer }
        ensures { context_tree self.new ≡ outer_scope (around_tree around) (context_tree self.old) }
    {
        self.names.leave(around.names);
        self.in_loop = around.in_loop;
        self.in_switch = around.in_switch;
        self.labels = around.labels;
    }

    /// The result of the function, where it has a type.
    pub fn result(&self) -> Option<&CType>
        ensures { option_map (λ t. type_tree t.now) result ≡ (context_tree self.now).result }
    {
        self.result.as_ref()
    }

    /// Sets the result of the function, and gives the one that was known.
    pub fn set_result(&mut self, to: Option<CType>) -> Option<CType>
        ensures before { option_map type_tree result ≡ (context_tree self.old).result }
        ensures set { SetsResult to self.old self.new }
    {
        mem::replace(&mut self.result, to)
    }

    /// The place of a tag among the structs (C11 6.7.2.3).
    pub fn tag_place(&self, tag: &Name) -> Option<u32>
        ensures { result ≡ tag_place (context_tree self.now) tag.now }
    {
        self.type_names.tag_place(tag)
    }

    /// Declares a tag behind the others, if it is new.
    pub fn with_tag(&mut self, tag: Name) -> Result<(), NoMemory>
        ensures { OnOk result (context_tree self.new ≡ with_tag (context_tree self.old) tag) }
    {
        if self.type_names.tag_place(&tag).is_some() {
            return Ok(());
        }
        let place = self.structs.next()?;
        self.structs.declare()?;
        self.type_names.add_tag(tag, place)
    }

    fn with_struct(&mut self) -> Result<u32, NoMemory>
        ensures place { IfOk result (λ k. k ≡ length (context_tree self.old).structs) }
        ensures known { OnOk result (context_tree self.new ≡ with_struct (context_tree self.old)) }
    {
        let place = self.structs.next()?;
        self.structs.declare()?;
        Ok(place)
    }

    /// Declares a struct behind the others, unless its tag is declared, and tells its place.
    pub fn declare_struct(
        &mut self,
        alloc: Global,
        tag: &Option<Name>,
    ) -> Result<Option<u32>, NoMemory>
        ensures place { IfOk result (λ k. k ≡ option_place (context_tree self.old) tag.now) }
        ensures known { OnOk result (KnowsStruct tag.now self.old self.new) }
    {
        match tag {
            None => Ok(Some(self.with_struct()?)),
            Some(tag) => {
                self.with_tag(tag.copy(alloc)?)?;
                Ok(self.tag_place(tag))
            }
        }
    }

    /// Declares a type name (C11 6.7.8), if it is new.
    pub fn add_type_name(
        &mut self,
        alloc: Global,
        x: &Name,
        t: &Option<CType>,
    ) -> Result<(), NoMemory>
        ensures { OnOk result (KnowsTypeName x.now t.now self.old self.new) }
    {
        if self.type_names.is_type_name(x) {
            return Ok(());
        }
        self.type_names.add_type(x.copy(alloc)?, copied(alloc, t)?)
    }

    /// Whether a type name that is declared again gets the same type (C11 6.7p3).
    pub fn is_type_kept(&self, x: &Name, t: &Option<CType>) -> bool
        ensures { result ≡ is_type_kept (type_under (context_tree self.now) x.now) (option_type t.now) }
    {
        match self.type_names.find(x) {
            None => true,
            Some(u) => is_same_type(u, t),
        }
    }

    /// Gives a struct that has no members yet its members, if each member and the whole have a size
    /// within the limit, and tells whether they have.
    pub fn define(
        &mut self,
        alloc: Global,
        k: u32,
        members: IndexMap<Name, CType>,
    ) -> Result<bool, NoMemory>
        requires { slice_get (context_tree self.old).structs k ≡ Some None }
        ensures told { IfOk result (IsSized self.old members.entries) }
        ensures defined { IfOk result (λ d. GivesMembers k members.entries d self.old self.new) }
    {
        self.structs.define(alloc, k, members)
    }

    /// Whether a declaration may begin with this type (C11 6.7.2).
    pub fn knows_base(&self, base: &Base) -> bool
        ensures { result ≡ is_some (base_type (context_tree self.now) base.now) }
    {
        self.type_names.knows(base)
    }

    /// The type that a declaration begins with, unless its tag isn't declared (C11 6.7.2) or the
    /// type name has no type.
    pub fn base_type(&self, alloc: Global, base: &Base) -> Result<Option<CType>, NoMemory>
        ensures { IfOk result (IsBase self.now base.now) }
    {
        match base {
            Base::Void => Ok(Some(CType::Void)),
            Base::Int => Ok(Some(CType::Int)),
            Base::Unsigned => Ok(Some(CType::Unsigned)),
            Base::Char => Ok(Some(CType::Char)),
            Base::Struct(tag) => Ok(struct_at(self.tag_place(tag))),
            Base::Named(x) => match self.type_names.type_of(x) {
                None => Ok(None),
                Some(t) => Ok(Some(t.copy(alloc)?)),
            },
        }
    }

    /// The same with stars behind it (C11 6.7.6.1).
    pub fn starred_type(
        &self,
        alloc: Global,
        base: &Base,
        stars: u32,
    ) -> Result<Option<CType>, NoMemory>
        ensures { IfOk result (IsStarred self.now base.now stars) }
    {
        let base = self.base_type(alloc, base)?;
        starred(alloc, base, stars)
    }

    /// The type of a name (C11 6.7.7), unless its tag isn't declared or the type
    /// name has no type.
    pub fn named_type(&self, alloc: Global, name: &TypeName) -> Result<Option<CType>, NoMemory>
        ensures { IfOk result (IsStarred self.now name.now.base name.now.stars) }
    {
        self.starred_type(alloc, &name.base, name.stars)
    }
}
