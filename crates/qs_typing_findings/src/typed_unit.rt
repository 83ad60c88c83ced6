// A unit with its types.
ghost use Rattle.std.specs.Prelude.{◌≡◌, map, option_map};
ghost use Rattle.qs_syntax.specs.UnitTrees.{unit_tree};
ghost use Rattle.qs_types.specs.EnvOf.{env_tree};
ghost use Rattle.qs_types.specs.Limits.{IsWithinLimits};
ghost use Rattle.qs_types.specs.Recorded.{global_blocks, type_names_of};
ghost use Rattle.qs_types.specs.References.{literal_blocks};
ghost use Rattle.qs_types.specs.TypeNamesOf.{names_tree};
ghost use Rattle.qs_types.specs.TypeOf.{type_tree};
ghost use Rattle.qs_types.specs.UnitRules.{structs_of};
ghost use Rattle.qs_types.specs.WellTyped.{WellTyped};
ghost use Rattle.qs_typing_findings.specs.NodeReferents.{unit_addressed, unit_referents};
ghost use Rattle.qs_typing_findings.specs.NodeTypes.{unit_types};
ghost use Rattle.qs_typing_findings.specs.NotedOf.{block_tree, text_tree};
ghost use Rattle.qs_typing_findings.specs.TypeSets.{blocks_prop, named_prop, structs_prop, tags_prop};
ghost use Rattle.qs_typing_findings.specs.TypeSets.{texts_prop, types_prop};

mod methods;

use crate::noted::{Block, TextBlock};
use qs_syntax::Unit;
use qs_types::{CType, Env, Referent, TypeNames};

/// A unit that keeps the rules and is within the limits, with the type of each expression at the
/// number of its node and what each name and call stands for, the declarations whose names are
/// operands of `&`, the structs, the names of types, the blocks of the variables of file scope, and
/// the texts that are blocks.
#[derive(Drop)]
pub struct TypedUnit {
    unit: Unit,
    types: Vec<Option<CType>>,
    referents: Vec<Option<Referent>>,
    addressed: Vec<u32>,
    env: Env,
    type_names: TypeNames,
    globals: Vec<Block>,
    texts: Vec<TextBlock>,
    ghost well_typed: { WellTyped (unit_tree unit) },
    ghost within_limits: { IsWithinLimits (unit_tree unit) },
    ghost are_types: { map (option_map type_tree) types.items ≡ unit_types (unit_tree unit) } by { types_prop (map (option_map type_tree) types.items) (unit_types (unit_tree unit)) },
    ghost are_referents: { referents.items ≡ unit_referents (unit_tree unit) },
    ghost are_addressed: { addressed.items ≡ unit_addressed (unit_tree unit) },
    ghost are_structs: { env_tree env ≡ structs_of (unit_tree unit) } by { structs_prop (env_tree env) (structs_of (unit_tree unit)) },
    ghost are_tags: { (names_tree type_names).tags ≡ (type_names_of (unit_tree unit)).tags } by { tags_prop (names_tree type_names).tags (type_names_of (unit_tree unit)).tags },
    ghost are_named: { (names_tree type_names).types ≡ (type_names_of (unit_tree unit)).types } by { named_prop (names_tree type_names).types (type_names_of (unit_tree unit)).types },
    ghost are_globals: { map block_tree globals.items ≡ global_blocks (unit_tree unit) } by { blocks_prop (map block_tree globals.items) (global_blocks (unit_tree unit)) },
    ghost are_texts: { map text_tree texts.items ≡ literal_blocks (unit_tree unit) } by { texts_prop (map text_tree texts.items) (literal_blocks (unit_tree unit)) },
}
