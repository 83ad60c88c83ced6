// What is noted of an expression: the names that are called in it, and its texts.
ghost use Rattle.std.specs.Prelude.{◌≡◌, ◌++◌, OnOk};
ghost use Rattle.qs_syntax.specs.TreeOf.{expr_tree, exprs_tree};
ghost use Rattle.qs_types.specs.References.{expr_calls, exprs_calls};
ghost use Rattle.qs_typing_findings.specs.Noting.{AddsAllTexts, AddsBothCalls, AddsBothTexts, AddsCalls};
ghost use Rattle.qs_typing_findings.specs.Noting.{AddsShapeTexts, AddsText, AddsTexts, NotesSite};

use crate::noted::{Noted, TextBlock};
use qs_base::{Name, NoMemory};
use qs_syntax::{Expr, Shape};
use qs_syntax_vocabulary::Text;
use std::alloc::Global;

// ---- calls

#[cycle(note_calls)]
fn note_calls(alloc: Global, e: &Expr, calls: &mut Vec<Name>) -> Result<(), NoMemory>
    ensures { OnOk result (calls.new.items ≡ calls.old.items ++ expr_calls (expr_tree e.now)) }
{
    note_shape_calls(alloc, &e.shape, calls)
}

#[cycle(note_calls)]
fn note_shape_calls(alloc: Global, shape: &Shape, calls: &mut Vec<Name>) -> Result<(), NoMemory>
    ensures { OnOk result (AddsCalls shape.now calls.old.items calls.new.items) }
{
    match shape {
        Shape::Constant(_, _) => Ok(()),
        Shape::Text(_) => Ok(()),
        Shape::Name(_) => Ok(()),
        Shape::Unary(_, a) => note_calls(alloc, a, calls),
        Shape::Step(_, a) => note_calls(alloc, a, calls),
        Shape::Cast(_, a) => note_calls(alloc, a, calls),
        Shape::SizeofType(_) => Ok(()),
        Shape::SizeofExpr(a) => note_calls(alloc, a, calls),
        Shape::Binary { left, right, .. } => note_both_calls(alloc, left, right, calls),
        Shape::Assign { left, right, .. } => note_both_calls(alloc, left, right, calls),
        Shape::Conditional {
            condition,
            then,
            otherwise,
        } => {
            note_calls(alloc, condition, calls)?;
            note_both_calls(alloc, then, otherwise, calls)
        }
        Shape::Comma(a, b) => note_both_calls(alloc, a, b, calls),
        Shape::Subscript(a, b) => note_both_calls(alloc, a, b, calls),
        Shape::Member { object, .. } => note_calls(alloc, object, calls),
        Shape::Call(f, es) => {
            calls.push(f.copy(alloc)?)?;
            note_all_calls(alloc, es, calls)
        }
    }
}

/// Notes the calls of two operands that stand side by side.
#[cycle(note_calls)]
fn note_both_calls(alloc: Global, a: &Expr, b: &Expr, calls: &mut Vec<Name>) -> Result<(), NoMemory>
    ensures { OnOk result (AddsBothCalls a.now b.now calls.old.items calls.new.items) }
{
    note_calls(alloc, a, calls)?;
    note_calls(alloc, b, calls)
}

#[cycle(note_calls)]
fn note_all_calls(alloc: Global, es: &[Expr], calls: &mut Vec<Name>) -> Result<(), NoMemory>
    ensures { OnOk result (calls.new.items ≡ calls.old.items ++ exprs_calls (exprs_tree es.now)) }
{
    for e in es {
        note_calls(alloc, e, calls)?;
    }
    Ok(())
}

// ---- texts

fn note_text(
    alloc: Global,
    node: u32,
    text: &Text,
    texts: &mut Vec<TextBlock>,
) -> Result<(), NoMemory>
    ensures { OnOk result (AddsText node text.now texts.old.items texts.new.items) }
{
    let bytes = Vec::from_slice(alloc, text.bytes())?;
    texts.push(TextBlock { node, bytes })?;
    Ok(())
}

#[cycle(note_texts)]
fn note_texts(alloc: Global, e: &Expr, texts: &mut Vec<TextBlock>) -> Result<(), NoMemory>
    ensures { OnOk result (AddsTexts e.now texts.old.items texts.new.items) }
{
    note_shape_texts(alloc, e.node.id, &e.shape, texts)
}

#[cycle(note_texts)]
fn note_shape_texts(
    alloc: Global,
    node: u32,
    shape: &Shape,
    texts: &mut Vec<TextBlock>,
) -> Result<(), NoMemory>
    ensures { OnOk result (AddsShapeTexts node shape.now texts.old.items texts.new.items) }
{
    match shape {
        Shape::Constant(_, _) => Ok(()),
        Shape::Text(text) => note_text(alloc, node, text, texts),
        Shape::Name(_) => Ok(()),
        Shape::Unary(_, a) => note_texts(alloc, a, texts),
        Shape::Step(_, a) => note_texts(alloc, a, texts),
        Shape::Cast(_, a) => note_texts(alloc, a, texts),
        Shape::SizeofType(_) => Ok(()),
        Shape::SizeofExpr(a) => note_texts(alloc, a, texts),
        Shape::Binary { left, right, .. } => note_both_texts(alloc, left, right, texts),
        Shape::Assign { left, right, .. } => note_both_texts(alloc, left, right, texts),
        Shape::Conditional {
            condition,
            then,
            otherwise,
        } => {
            note_texts(alloc, condition, texts)?;
            note_both_texts(alloc, then, otherwise, texts)
        }
        Shape::Comma(a, b) => note_both_texts(alloc, a, b, texts),
        Shape::Subscript(a, b) => note_both_texts(alloc, a, b, texts),
        Shape::Member { object, .. } => note_texts(alloc, object, texts),
        Shape::Call(_, es) => note_all_texts(alloc, es, texts),
    }
}

/// Notes the texts of two operands that stand side by side.
#[cycle(note_texts)]
fn note_both_texts(
    alloc: Global,
    a: &Expr,
    b: &Expr,
    texts: &mut Vec<TextBlock>,
) -> Result<(), NoMemory>
    ensures { OnOk result (AddsBothTexts a.now b.now texts.old.items texts.new.items) }
{
    note_texts(alloc, a, texts)?;
    note_texts(alloc, b, texts)
}

#[cycle(note_texts)]
fn note_all_texts(alloc: Global, es: &[Expr], texts: &mut Vec<TextBlock>) -> Result<(), NoMemory>
    ensures { OnOk result (AddsAllTexts es.now texts.old.items texts.new.items) }
{
    for e in es {
        note_texts(alloc, e, texts)?;
    }
    Ok(())
}

impl Noted {
    /// Notes an expression that is no part of another; it may be a text that only fills an array of
    /// file scope.
    pub fn note_site(&mut self, alloc: Global, fills_array: bool, e: &Expr) -> Result<(), NoMemory>
        ensures { OnOk result (NotesSite fills_array e.now self.old self.new) }
    {
        note_calls(alloc, e, &mut self.calls)?;
        if !fills_array {
            note_texts(alloc, e, &mut self.texts)?;
        }
        Ok(())
    }
}
