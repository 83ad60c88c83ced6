// What is noted of a unit besides types and faults: what is called, and the blocks of memory.
ghost use Rattle.std.specs.Prelude.{◌≡◌, ◌≤◌, IfOk, OnOk, map, option_map};
ghost use Rattle.std.specs.Option.{option_or};
ghost use Rattle.qs_types.specs.EnvOf.{env_tree};
ghost use Rattle.qs_types.specs.Layout.{size_limit};
ghost use Rattle.qs_types.specs.Limits.{block_past, type_size};
ghost use Rattle.qs_types.specs.Placed.{is_no_scalar};
ghost use Rattle.qs_types.specs.TypeOf.{type_tree};
ghost use Rattle.qs_typing_findings.specs.Noted as noted;
ghost use Rattle.qs_typing_findings.specs.NotedOf.{ArePlaced, block_tree, local_tree, noted_tree};
ghost use Rattle.qs_typing_findings.specs.Noting.{BeginsBody, EndsBody, IsLocal, NotesVariable};
ghost use Rattle.qs_typing_findings.specs.Sets.{nodes_once};

use indexmap::IndexSet;
use qs_base::{Name, NoMemory};
use qs_types::{CType, Env, extent_of, is_scalar};
use std::alloc::Global;

/// The most placed bytes of a function.
pub const LOCAL_LIMIT: u32 = 1_048_576;

/// A block of memory: the node that declares it, and how many bytes it takes.
#[derive(Clone, Copy)]
pub struct Block {
    /// The node.
    pub node: u32,
    /// The bytes.
    pub size: u32,
}

/// A text that is a block of memory: its node, and its bytes without the zero at their end
/// (C11 6.4.5p6).
#[derive(Drop)]
pub struct TextBlock {
    /// The node.
    pub node: u32,
    /// The bytes.
    pub bytes: Vec<u8>,
}

/// A local or parameter.
#[derive(Clone, Copy)]
pub struct Local {
    /// Its block, where it has one.
    pub block: Block,
    /// Whether it is no scalar.
    pub is_object: bool,
}

/// The names that are called, the texts that are blocks, the variables of file scope, the locals of
/// the function so far, and the local at which the placed locals of a function first passed their
/// limit.
#[derive(Drop)]
pub struct Noted {
    pub calls: Vec<Name>,
    pub texts: Vec<TextBlock>,
    pub globals: Vec<Block>,
    pub locals: Vec<Local>,
    pub local_past: Option<u32>,
}

/// The size of a declared type, 0 where there is none.
fn type_size(structs: &Env, t: &Option<CType>) -> u32
    ensures size { result ≡ type_size (env_tree structs.now) (option_map type_tree t.now) }
    ensures small { result ≤ size_limit }
{
    match t {
        None => 0,
        Some(t) => match extent_of(structs, t) {
            None => 0,
            Some(extent) => extent.size,
        },
    }
}

fn is_no_scalar(t: &Option<CType>) -> bool
    ensures { result ≡ is_no_scalar (option_map type_tree t.now) }
{
    match t {
        None => false,
        Some(t) => !is_scalar(t),
    }
}

/// A local or parameter of a declared type.
pub fn local_of(structs: &Env, node: u32, t: &Option<CType>) -> Local
    ensures { IsLocal structs.now node t.now result }
{
    let size = type_size(structs, t);
    Local {
        block: Block {
            node,
            size: (size + 3) / 4 * 4,
        },
        is_object: is_no_scalar(t),
    }
}

/// The first block that ends past the limit, where each begins at the least multiple of 4 behind
/// the one before.
pub fn block_past(limit: u32, blocks: &[Block]) -> Option<u32>
    ensures { result ≡ block_past limit 0 (map block_tree blocks.now) }
{
    let mut end: u64 = 0;
    for b in blocks {
        end = (end + 3) / 4 * 4 + u64::from(b.size);
        if end > u64::from(limit) {
            return Some(b.node);
        }
    }
    None
}

/// These nodes, each once.
fn set_of(alloc: Global, nodes: &[u32]) -> Result<IndexSet<u32>, NoMemory>
    ensures { IfOk result (λ set. set.keys ≡ nodes_once nodes.now) }
{
    let mut set: IndexSet<u32> = IndexSet::new(alloc);
    for n in nodes {
        set.insert(*n)?;
    }
    Ok(set)
}

/// Whether a local is no scalar, or among these nodes.
#[tactic(auto, using(crate::proofs::Sets::node_found))]
fn is_block(nodes: &IndexSet<u32>, l: &Local) -> bool
    ensures { result ≡ noted.is_block nodes.now.keys (local_tree l.now) }
{
    nodes.contains(&l.block.node) || l.is_object
}

/// The blocks of the locals that are no scalars, or that are among these nodes.
fn placed(alloc: Global, nodes: &IndexSet<u32>, locals: &[Local]) -> Result<Vec<Block>, NoMemory>
    ensures { IfOk result (λ bs. ArePlaced nodes.now.keys locals.now bs.items) }
{
    let mut blocks = Vec::new(alloc);
    for l in locals {
        if is_block(nodes, l) {
            blocks.push(l.block)?;
        }
    }
    Ok(blocks)
}

impl Noted {
    /// Nothing yet.
    pub fn new(alloc: Global) -> Noted
        ensures { noted_tree result ≡ noted.nothing_noted }
    {
        Noted {
            calls: Vec::new(alloc),
            texts: Vec::new(alloc),
            globals: Vec::new(alloc),
            locals: Vec::new(alloc),
            local_past: None,
        }
    }

    /// Notes a variable of this declared type.
    pub fn note_variable(
        &mut self,
        at_file_scope: bool,
        env: &Env,
        node: u32,
        t: &Option<CType>,
    ) -> Result<(), NoMemory>
        ensures { OnOk result (NotesVariable at_file_scope env.now node t.now self.old self.new) }
    {
        if at_file_scope {
            let size = type_size(env, t);
            self.globals.push(Block { node, size })?;
        } else {
            self.locals.push(local_of(env, node, t))?;
        }
        Ok(())
    }

    /// Begins a body, where these are its parameters.
    pub fn begin_body(&mut self, parameters: Vec<Local>)
        ensures { BeginsBody parameters.items self.old self.new }
    {
        self.locals = parameters;
    }

    /// Ends a body, where the names of these declarations are operands of `&`.
    #[tactic(auto, using(crate::proofs::Sets::placed_past))]
    pub fn end_body(&mut self, alloc: Global, nodes: &[u32]) -> Result<(), NoMemory>
        ensures { OnOk result (EndsBody nodes.now self.old self.new) }
    {
        let nodes = set_of(alloc, nodes)?;
        let blocks = placed(alloc, &nodes, &self.locals)?;
        let past = block_past(LOCAL_LIMIT, &blocks);
        self.locals = Vec::new(alloc);
        self.local_past = or_else(self.local_past, past);
        Ok(())
    }
}

/// The first of the two that is there.
pub fn or_else(first: Option<u32>, other: Option<u32>) -> Option<u32>
    ensures { result ≡ option_or first other }
{
    match first {
        None => other,
        Some(n) => Some(n),
    }
}
