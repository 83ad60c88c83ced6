// Constants as the bytes of the scalars that they initialise (C11 6.6, 6.7.9p11, p14).
ghost use Rattle.std.specs.Prelude.{◌≡◌};
ghost use Rattle.qs_meaning.specs.InitialValues.{array_cells, length_in, static_pointer};
ghost use Rattle.qs_memory.specs.Memory.{bytes_of};
ghost use Rattle.qs_memory.specs.Values.{width};
ghost use Rattle.qs_syntax.specs.TreeOf.{expr_tree};
ghost use Rattle.qs_types.specs.Constants.{value_of};
ghost use Rattle.qs_types.specs.TypeOf.{type_tree};
ghost use Rattle.qs_typed_units.specs.BlocksOf.{FindsCells, operand_pointer};
ghost use Rattle.qs_typed_units.specs.CellsOf.{cells_tree, target_tree};
ghost use Rattle.qs_typed_units.specs.KnownBlocks.{address_constant_known, constant_cells_known};
ghost use Rattle.qs_typed_units.specs.KnownBlocks.{integer_cells_known, name_pointer};
ghost use Rattle.qs_typed_units.specs.KnownBlocks.{named_pointer_known, pointer_cells_known};
ghost use Rattle.qs_typed_units.specs.KnownBlocks.{pointer_constant_known, referent_pointer};
ghost use Rattle.qs_typed_nodes.specs.PlacesOf.{statics_tree};
ghost use Rattle.qs_typed_forms.specs.Results.{Gives, Makes, itself};
ghost use Rattle.qs_typed_units.specs.TablesOf.{Finds, structs_known};
ghost use Rattle.qs_typed_trees.specs.TreeOf.{object_tree};

use crate::cells::{Cell, push_bytes, push_pointer};
use crate::contents::Target;
use crate::tables::Tables;
use qs_base::NoMemory;
use qs_memory::Scalar;
use qs_syntax::{Expr, Shape};
use qs_syntax_vocabulary::UnaryOperator;
use qs_typed_nodes::{Statics, file_variable_object, referent_in, text_object, text_of};
use qs_typed_trees::{Object, scalar_of};
use qs_types::{CType, Referent, is_null_constant, is_pointer};
use std::alloc::Global;

// ---- addresses (6.6p9)

fn static_pointer(object: Object) -> Result<Target, NoMemory>
    ensures { Gives target_tree (static_pointer (object_tree object)) result }
{
    match object {
        Object::Local(_) => Err(NoMemory),
        Object::Static(k) => Ok(Target::Static(k)),
    }
}

fn referent_pointer(statics: &Statics, referent: Referent) -> Result<Target, NoMemory>
    ensures { Gives target_tree (referent_pointer (statics_tree statics.now) referent) result }
{
    match referent {
        Referent::Local(_) => Err(NoMemory),
        Referent::File(node) => static_pointer(file_variable_object(statics, node)?),
        Referent::Function(_) => Err(NoMemory),
        Referent::PutChar => Err(NoMemory),
        Referent::GetChar => Err(NoMemory),
    }
}

/// What the name at a node stands for.
fn name_pointer(t: &Tables<'_>, node: u32) -> Result<Target, NoMemory>
    ensures { Finds target_tree name_pointer t.now node result }
{
    match referent_in(t.referents, node) {
        None => Err(NoMemory),
        Some(referent) => referent_pointer(&t.statics, referent),
    }
}

/// The operand of `&`, where it is a name.
fn named_pointer(t: &Tables<'_>, e: &Expr) -> Result<Target, NoMemory>
    ensures { Finds target_tree named_pointer_known t.now (expr_tree e.now) result }
{
    match &e.shape {
        Shape::Name(_) => name_pointer(t, e.node.id),
        _ => Err(NoMemory),
    }
}

fn pointer_by(t: &Tables<'_>, operator: UnaryOperator, operand: &Expr) -> Result<Target, NoMemory>
    ensures { Finds target_tree (operand_pointer operator) t.now (expr_tree operand.now) result }
{
    match operator {
        UnaryOperator::Address => named_pointer(t, operand),
        _ => Err(NoMemory),
    }
}

/// A text, the name of an array, or `&` of a variable.
fn address_constant(t: &Tables<'_>, e: &Expr) -> Result<Target, NoMemory>
    ensures { Finds target_tree address_constant_known t.now (expr_tree e.now) result }
{
    match &e.shape {
        Shape::Text(_) => static_pointer(text_object(&t.statics, e.node.id)?),
        Shape::Name(_) => name_pointer(t, e.node.id),
        Shape::Unary(operator, a) => pointer_by(t, *operator, a),
        _ => Err(NoMemory),
    }
}

fn pointer_constant(t: &Tables<'_>, e: &Expr) -> Result<Target, NoMemory>
    ensures { Finds target_tree pointer_constant_known t.now (expr_tree e.now) result }
{
    if is_null_constant(e) {
        return Ok(Target::Null);
    }
    address_constant(t, e)
}

fn pointer_cells(alloc: Global, t: &Tables<'_>, e: &Expr) -> Result<Vec<Cell>, NoMemory>
    ensures { Finds cells_tree pointer_cells_known t.now (expr_tree e.now) result }
{
    let target = pointer_constant(t, e)?;
    let mut cells = Vec::new(alloc);
    push_pointer(&mut cells, target)?;
    Ok(cells)
}

// ---- integers (6.6p6)

/// The value of a constant expression.
fn value(t: &Tables<'_>, e: &Expr) -> Result<u32, NoMemory>
    ensures { Gives itself (value_of (structs_known t.now) (expr_tree e.now)) result }
{
    match qs_types::value(t.env, t.type_names, e) {
        None => Err(NoMemory),
        Some(n) => Ok(n),
    }
}

/// How many bytes it takes.
fn width(s: Scalar) -> u32
    ensures { result ≡ width s }
{
    match s {
        Scalar::Char => 1,
        Scalar::Int => 4,
        Scalar::Unsigned => 4,
        Scalar::Pointer => 4,
    }
}

/// The bytes of a number, the lowest first.
fn bytes_of(alloc: Global, size: u32, n: u32) -> Result<Vec<Cell>, NoMemory>
    ensures { Makes cells_tree (bytes_of size n) result }
{
    let mut cells = Vec::new(alloc);
    let mut rest = n;
    for _ in 0..size {
        cells.push(Cell::Byte((rest % 256) as u8))?;
        rest /= 256;
    }
    Ok(cells)
}

fn integer_cells(alloc: Global, t: &Tables<'_>, of: &CType, e: &Expr) -> Result<Vec<Cell>, NoMemory>
    ensures { FindsCells integer_cells_known t.now of.now (expr_tree e.now) result }
{
    let n = value(t, e)?;
    bytes_of(alloc, width(scalar_of(of)), n)
}

/// The bytes of a scalar of this type (C11 6.3.1.3, 6.7.9p11).
pub fn constant_cells(
    alloc: Global,
    t: &Tables<'_>,
    of: &CType,
    e: &Expr,
) -> Result<Vec<Cell>, NoMemory>
    ensures { FindsCells constant_cells_known t.now of.now (expr_tree e.now) result }
{
    if is_pointer(of) {
        pointer_cells(alloc, t, e)
    } else {
        integer_cells(alloc, t, of, e)
    }
}

// ---- texts

fn length_in(t: &CType) -> u32
    ensures { result ≡ length_in (type_tree t.now) }
{
    match t {
        CType::Int => 0,
        CType::Unsigned => 0,
        CType::Char => 0,
        CType::Void => 0,
        CType::Pointer(_) => 0,
        CType::Array(_, n) => *n,
        CType::Struct(_) => 0,
    }
}

/// Of a text with a zero behind it as many bytes as an array has room for (C11 6.7.9p14).
pub fn array_cells(alloc: Global, of: &CType, e: &Expr) -> Result<Vec<Cell>, NoMemory>
    ensures { Gives cells_tree (array_cells (type_tree of.now) (expr_tree e.now)) result }
{
    let text = text_of(e)?;
    let mut cells = Vec::new(alloc);
    push_bytes(&mut cells, text.bytes())?;
    cells.push(Cell::Byte(0))?;
    cells.truncate(length_in(of) as usize);
    Ok(cells)
}
