// How typed units are made and asked.
ghost use Rattle.std.specs.Prelude.{◌≡◌, map, option_map};
ghost use Rattle.qs_syntax.specs.UnitTrees.{unit_tree};
ghost use Rattle.qs_types.specs.EnvOf.{env_tree};
ghost use Rattle.qs_types.specs.Recorded.{global_blocks, type_names_of};
ghost use Rattle.qs_types.specs.References.{literal_blocks};
ghost use Rattle.qs_types.specs.TypeNamesOf.{names_tree};
ghost use Rattle.qs_types.specs.TypeOf.{type_tree};
ghost use Rattle.qs_types.specs.UnitRules.{structs_of};
ghost use Rattle.qs_types.specs.WellTyped.{end_context};
ghost use Rattle.qs_typing_findings.specs.ByNumber.{IsByNumber};
ghost use Rattle.qs_typing_findings.specs.ContextOf.{context_tree};
ghost use Rattle.qs_types.specs.Referents.{referent_of};
ghost use Rattle.qs_typing_findings.specs.NodeReferents.{no_referent, unit_addressed, unit_referents};
ghost use Rattle.qs_typing_findings.specs.NodeTypes.{AreTypesByNumber, unit_types};
ghost use Rattle.qs_typing_findings.specs.NotedOf.{block_tree, text_tree};
ghost use Rattle.qs_typing_findings.specs.Refusals.{IsAccepted};
ghost use Rattle.qs_typing_findings.specs.TypedOf.{typed_tree};
ghost use Rattle.qs_typing_findings.specs.UnitWalk.{unit_walked};
ghost use Rattle.qs_typing_findings.specs.WalkOf.{walk_tree};

use super::TypedUnit;
use crate::context::Context;
use crate::noted::{Block, TextBlock};
use crate::walk::Walk;
use qs_syntax::Unit;
use qs_types::{CType, Env, Referent, TypeNames};

impl TypedUnit {
    /// A unit that is accepted, with what was found in it and what is known behind it.
    #[tactic(auto, using(crate::proofs::TypedLaws::parts_are))]
    pub fn new(unit: Unit, c: Context, walk: Walk) -> TypedUnit
        requires accepted { IsAccepted (unit_tree unit) }
        requires known { context_tree c ≡ end_context (unit_tree unit) }
        requires walked { walk_tree walk ≡ unit_walked (unit_tree unit) }
        ensures { typed_tree result ≡ unit_tree unit }
    {
        let Walk { found, noted } = walk;
        let (env, type_names) = c.into_structs();
        TypedUnit {
            unit,
            types: found.types,
            referents: found.referents,
            addressed: found.addressed,
            env,
            type_names,
            globals: noted.globals,
            texts: noted.texts,
        }
    }

    /// The unit.
    pub fn unit(&self) -> &Unit
        ensures { unit_tree result.now ≡ typed_tree self.now }
    {
        &self.unit
    }

    /// The type of each expression, and the declared type of each variable and parameter, at the
    /// number of its node, None at every other number. The declared type of a variable may be an
    /// array; a parameter that is written as an array is a pointer (C11 6.7.6.3p7).
    pub fn types(&self) -> &[Option<CType>]
        ensures types { map (option_map type_tree) result.now ≡ unit_types (typed_tree self.now) }
        ensures by_number { AreTypesByNumber (typed_tree self.now) result.now }
    {
        &self.types
    }

    /// The structs of the unit.
    pub fn env(&self) -> &Env
        ensures { env_tree result.now ≡ structs_of (typed_tree self.now) }
    {
        &self.env
    }

    /// What each name and call stands for, at the number of its node (C11 6.2.1).
    pub fn referents(&self) -> &[Option<Referent>]
        ensures referents { result.now ≡ unit_referents (typed_tree self.now) }
        ensures by_number { IsByNumber no_referent referent_of (typed_tree self.now) result.now }
    {
        &self.referents
    }

    /// The locals and parameters whose names are operands of `&`, below `sizeof` too, by the
    /// numbers of the nodes of their declarations, in the order of the text.
    pub fn addressed(&self) -> &[u32]
        ensures { result.now ≡ unit_addressed (typed_tree self.now) }
    {
        &self.addressed
    }

    /// The names of types: tags with the numbers of their structs (C11 6.7.2.3), and the names of
    /// typedefs with their types (6.7.8).
    #[tactic(auto, using(crate::proofs::TypedLaws::same_names))]
    pub fn type_names(&self) -> &TypeNames
        ensures { names_tree result.now ≡ type_names_of (typed_tree self.now) }
    {
        &self.type_names
    }

    /// The variables of file scope with their sizes, in the order of their declarations.
    pub fn globals(&self) -> &[Block]
        ensures { map block_tree result.now ≡ global_blocks (typed_tree self.now) }
    {
        &self.globals
    }

    /// The texts that are blocks of memory, all but those that fill an array of file scope, in the
    /// order of the text (C11 6.4.5p6).
    pub fn texts(&self) -> &[TextBlock]
        ensures { map text_tree result.now ≡ literal_blocks (typed_tree self.now) }
    {
        &self.texts
    }
}
