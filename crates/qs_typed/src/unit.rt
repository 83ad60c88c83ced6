// The typed tree of a unit (C11 6.9), and the variables of its functions.
ghost use Rattle.std.specs.Prelude.{◌≡◌, IfOk, map};
ghost use Rattle.qs_meaning.specs.InitialValues.{text_block};
ghost use Rattle.qs_meaning.specs.Units.{typed_of};
ghost use Rattle.qs_typing_findings.specs.NotedOf.{text_tree};
ghost use Rattle.qs_typing_findings.specs.TypedOf.{typed_tree};
ghost use Rattle.qs_typed_units.specs.BlocksOf.{AddsTexts};
ghost use Rattle.qs_typed_forms.specs.Results.{Gives, Makes};
ghost use Rattle.qs_typed_units.specs.TablesOf.{AreOf, number_lists, tables_tree, text_nodes};
ghost use Rattle.qs_typed_trees.specs.TreeOf.{program_tree, static_block_tree};
ghost use Rattle.qs_typed.specs.UnitVariables.{unit_variables};

use crate::units::{functions, variables};
use indexmap::IndexSet;
use qs_base::NoMemory;
use qs_typed_nodes::Statics;
use qs_typed_trees::{Datum, StaticBlock, TypedProgram};
use qs_typed_units::{Tables, blocks, file_variables_in, functions_in, headers, insert};
use qs_typing_findings::{TextBlock, TypedUnit};
use std::alloc::Global;

// ---- texts

/// The nodes of texts.
fn text_nodes(alloc: Global, texts: &[TextBlock]) -> Result<IndexSet<u32>, NoMemory>
    ensures { IfOk result (λ nodes. nodes.keys ≡ text_nodes (map text_tree texts.now)) }
{
    let mut nodes = IndexSet::new(alloc);
    for t in texts {
        insert(&mut nodes, t.node)?;
    }
    Ok(nodes)
}

/// The block of a text: its bytes and a zero, which aren't written to (C11 6.4.5p6, p7).
fn text_data(alloc: Global, text: &TextBlock) -> Result<StaticBlock, NoMemory>
    ensures { Makes static_block_tree (text_block (text_tree text.now)) result }
{
    let mut bytes = Vec::new(alloc);
    bytes.extend_from_slice(&text.bytes)?;
    bytes.push(0)?;
    let mut contents = Vec::new(alloc);
    contents.push(Datum::Bytes(bytes))?;
    Ok(StaticBlock {
        contents,
        is_writable: false,
    })
}

/// Adds the blocks of texts.
fn add_texts(
    alloc: Global,
    texts: &[TextBlock],
    blocks: &mut Vec<StaticBlock>,
) -> Result<(), NoMemory>
    ensures { AddsTexts texts.now blocks.old blocks.new result }
{
    for text in texts {
        blocks.push(text_data(alloc, text)?)?;
    }
    Ok(())
}

// ---- units

/// What is known of a unit as a whole.
fn tables<'a>(alloc: Global, typed: &'a TypedUnit) -> Result<Tables<'a>, NoMemory>
    ensures { IfOk result (λ t. AreOf (tables_tree t) (typed_tree typed.now)) }
{
    let ds = typed.unit().declarations();
    let types = typed.types();
    let headers = headers(alloc, types, ds)?;
    let variables = file_variables_in(alloc, ds)?;
    let texts = text_nodes(alloc, typed.texts())?;
    let functions = functions_in(alloc, ds)?;
    Ok(Tables {
        types,
        referents: typed.referents(),
        env: typed.env(),
        type_names: typed.type_names(),
        headers,
        statics: Statics { variables, texts },
        functions,
    })
}

/// The typed tree of a unit. Want of memory is the other answer.
pub fn typed_program(alloc: Global, typed: &TypedUnit) -> Result<TypedProgram, NoMemory>
    ensures { Gives program_tree (typed_of (typed_tree typed.now)) result }
{
    let t = tables(alloc, typed)?;
    let ds = typed.unit().declarations();
    let functions = functions(alloc, &t, ds)?;
    let mut blocks = blocks(alloc, &t, ds)?;
    add_texts(alloc, typed.texts(), &mut blocks)?;
    Ok(TypedProgram { functions, blocks })
}

/// The variables of each function with a body, parameters among them, by the numbers of their
/// nodes.
pub fn variable_nodes(alloc: Global, typed: &TypedUnit) -> Result<Vec<Vec<u32>>, NoMemory>
    ensures { Makes number_lists (unit_variables (typed_tree typed.now)) result }
{
    let t = tables(alloc, typed)?;
    variables(alloc, &t, typed.unit().declarations())
}
