// A walk over a unit.
ghost use Rattle.std.specs.Prelude.{◌≡◌, ◌<◌, IfOk, OnOk, length};
ghost use Rattle.qs_typing_findings.specs.ExprWalks.{HasType};
ghost use Rattle.qs_typing_findings.specs.SiteWalks.{GivesType, JoinsLeast, JudgesNode, NotesDeclared};
ghost use Rattle.qs_typing_findings.specs.SiteWalks.{OpensObject, WalkBeginsBody, WalksExpression};
ghost use Rattle.qs_typing_findings.specs.SiteWalks.{WalksSite};
ghost use Rattle.qs_typing_findings.specs.UnitWalk.{node_opened, start_walk, with_body_ended};
ghost use Rattle.qs_typing_findings.specs.WalkOf.{walk_tree};

use crate::context::Context;
use crate::expressions::walk_expression;
use crate::found::{Fault, Found};
use crate::judged::Test;
use crate::noted::{Local, Noted};
use crate::positions::Position;
use qs_base::NoMemory;
use qs_syntax::{Expr, Node};
use qs_types::CType;
use std::alloc::Global;

/// What is found and noted so far.
#[derive(Drop)]
pub struct Walk {
    /// The types and the least fault.
    pub found: Found,
    /// What is called, and the blocks of memory.
    pub noted: Noted,
}

impl Walk {
    /// Nothing yet.
    pub fn new(alloc: Global) -> Walk
        ensures { walk_tree result ≡ start_walk }
    {
        Walk {
            found: Found::new(alloc),
            noted: Noted::new(alloc),
        }
    }

    /// Makes a place for a node that is no expression.
    pub fn open(&mut self) -> Result<(), NoMemory>
        ensures { OnOk result (walk_tree self.new ≡ node_opened (walk_tree self.old)) }
    {
        self.found.open(None)?;
        Ok(())
    }

    /// Makes a place for the node of a variable or parameter, and tells it.
    pub fn open_object(&mut self) -> Result<usize, NoMemory>
        ensures place { IfOk result (λ at. at ≡ length (walk_tree self.old).found.types) }
        ensures opened { OnOk result (OpensObject self.old self.new) }
    {
        self.found.open(None)
    }

    /// Gives the node at this place the type that it declares, if it has one.
    pub fn declare(&mut self, at: usize, t: Option<CType>)
        requires { at < length (walk_tree self.old).found.types }
        ensures { GivesType at t self.old self.new }
    {
        self.found.fill(at, t);
    }

    /// Notes the rules that a node breaks.
    pub fn judge(&mut self, node: Node, tests: &[Test])
        ensures { JudgesNode node tests.now self.old self.new }
    {
        self.found.judge(node.id, tests);
    }

    /// The type of an expression that is no part of another. It may be a text that only fills an
    /// array of file scope.
    pub fn site(
        &mut self,
        alloc: Global,
        c: &Context,
        p: Position,
        fills_array: bool,
        e: &Expr,
    ) -> Result<Option<CType>, NoMemory>
        ensures typed { IfOk result (HasType c.now e.now) }
        ensures walked { OnOk result (WalksSite c.now p fills_array e.now self.old self.new) }
    {
        let t = walk_expression(alloc, c, e, p, &mut self.found)?;
        self.noted.note_site(alloc, fills_array, e)?;
        Ok(t)
    }

    /// The type of an expression that is no part of another.
    pub fn expression(
        &mut self,
        alloc: Global,
        c: &Context,
        p: Position,
        e: &Expr,
    ) -> Result<Option<CType>, NoMemory>
        ensures typed { IfOk result (HasType c.now e.now) }
        ensures walked { OnOk result (WalksExpression c.now p e.now self.old self.new) }
    {
        self.site(alloc, c, p, false, e)
    }

    /// Notes a variable of this declared type.
    pub fn note_variable(
        &mut self,
        at_file_scope: bool,
        c: &Context,
        node: Node,
        t: &Option<CType>,
    ) -> Result<(), NoMemory>
        ensures { OnOk result (NotesDeclared at_file_scope c.now node.id t.now self.old self.new) }
    {
        self.noted
            .note_variable(at_file_scope, c.structs(), node.id, t)
    }

    /// Adds the least fault that was found before.
    pub fn join(&mut self, before: Option<Fault>)
        ensures { JoinsLeast before self.old self.new }
    {
        let found = self.found.least;
        self.found.least = before;
        if let Some(f) = found {
            self.found.note_fault(f);
        }
    }

    /// Begins a body with these parameters.
    pub fn begin_body(&mut self, parameters: Vec<Local>)
        ensures { WalkBeginsBody parameters.items self.old self.new }
    {
        self.noted.begin_body(parameters);
    }

    /// Ends a body, before which the names of so many declarations were operands of `&`.
    pub fn end_body(&mut self, alloc: Global, start: usize) -> Result<(), NoMemory>
        ensures { OnOk result (walk_tree self.new ≡ with_body_ended start (walk_tree self.old)) }
    {
        if start > self.found.addressed.len() {
            return self.noted.end_body(alloc, &[]);
        }
        self.noted.end_body(alloc, &self.found.addressed[start..])
    }
}
