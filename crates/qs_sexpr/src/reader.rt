// The nodes so far, where some lists are still open.
use crate::node::{Item, Node};
use qs_base::NoMemory;
use std::alloc::Global;

/// A list that is open.
#[derive(Clone, Copy)]
pub struct OpenList {
    /// The number of its node.
    pub node: u32,
    /// How many parts stand before it in the list around it.
    pub parts: u32,
}

/// The nodes so far and the lists that are open. The node of an open list has no counts yet.
#[derive(Drop)]
pub struct Reader {
    pub nodes: Vec<Node>,
    /// The open lists, the innermost last.
    pub lists: Vec<OpenList>,
    /// How many parts the innermost list has so far.
    pub parts: u32,
}

impl Reader {
    ghost use Rattle.std.specs.Prelude.{◌≡◌, [], length, IfOk};
    ghost use Rattle.qs_sexpr.specs.Readers.{AddsAtMostOneNode, Begins, Ends, Holds, IsDepth};
    ghost use Rattle.qs_sexpr.specs.Readers.{IsReader, Puts};

    /// No nodes so far, and no list is open.
    pub fn new(alloc: Global) -> Reader
        ensures holds { Holds result [] [] }
        ensures few { length result.nodes.items ≡ 0 }
    {
        Reader {
            nodes: Vec::new(alloc),
            lists: Vec::new(alloc),
            parts: 0,
        }
    }

    /// How many lists are open.
    pub fn depth(&self) -> usize
        ensures { IsDepth self.now result }
    {
        self.lists.len()
    }

    /// Puts an atom.
    pub fn put(&mut self, at: u32, item: Item) -> Result<(), NoMemory>
        requires { IsReader self.old }
        ensures puts { IfOk result (λ _. Puts self.old at item self.new) }
        ensures few { IfOk result (λ _. AddsAtMostOneNode self.old self.new) }
    {
        self.nodes.push(Node { at, item })?;
        self.parts += 1;
        Ok(())
    }

    /// Opens a list.
    pub fn begin(&mut self, at: u32) -> Result<(), NoMemory>
        requires { IsReader self.old }
        ensures begins { IfOk result (λ _. Begins self.old at self.new) }
        ensures few { IfOk result (λ _. AddsAtMostOneNode self.old self.new) }
    {
        self.lists.push(OpenList {
            node: self.nodes.len() as u32,
            parts: self.parts,
        })?;
        self.nodes.push(Node {
            at,
            item: Item::List { parts: 0, nodes: 0 },
        })?;
        self.parts = 0;
        Ok(())
    }

    /// Closes the innermost list. The answer is no where no list is open.
    pub fn end(&mut self) -> bool
        requires { IsReader self.old }
        ensures ends { Ends self.old result self.new }
        ensures few { length self.new.nodes.items ≡ length self.old.nodes.items }
    {
        match self.lists.pop() {
            Some(open) => {
                let at = open.node as usize;
                let size = self.nodes.len() - at - 1;
                self.nodes[at] = Node {
                    at: self.nodes[at].at,
                    item: Item::List {
                        parts: self.parts,
                        nodes: size as u32,
                    },
                };
                self.parts = open.parts + 1;
                true
            }
            None => false,
        }
    }
}
