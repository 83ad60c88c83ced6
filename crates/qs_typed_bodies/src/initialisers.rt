// What the declaration of a local does (C11 6.7.9).
ghost use Rattle.std.specs.Prelude.{◌≡◌, ℕ, List, length, map};
ghost use Rattle.qs_meaning.specs.Forms.{address_in};
ghost use Rattle.qs_meaning.specs.Initialisers.{text_room};
ghost use Rattle.qs_meaning.specs.Typed.{member};
ghost use Rattle.qs_syntax.specs.TreeOf.{variable_tree};
ghost use Rattle.qs_types.specs.TypeOf.{type_tree};
ghost use Rattle.qs_typed_nodes.specs.KnownOf.{Knows};
ghost use Rattle.qs_typed_nodes.specs.KnownStatements.{local_set_known, object_set_known, variable_known};
ghost use Rattle.qs_typed_nodes.specs.KnownStatements.{variables_known};
ghost use Rattle.qs_typed_forms.specs.Results.{Equals, Gives, Makes, listed};
ghost use Rattle.qs_typed_bodies.specs.SetsOf.{Fills, Initialises, SetsLocal, SetsPart, SetsPiece};
ghost use Rattle.qs_typed_bodies.specs.SetsOf.{SetsPieces, SetsText, object_address};
ghost use Rattle.qs_typed_trees.specs.TreeOf.{effect_tree, effects_tree, expression_tree, lvalue_tree};

use crate::typed::typed;
use qs_base::NoMemory;
use qs_syntax::{Expr, Initialiser, Variable};
use qs_typed_forms::{Form, Typed};
use qs_typed_nodes::{Known, Piece, blank_of, local_lvalue, pieces, text_of};
use qs_typed_operators::plain_form;
use qs_typed_trees::{Effect, Expression, Lvalue, Object};
use qs_types::{CType, is_array};
use std::alloc::Global;

/// Of a text as many bytes as there is room for, the zero at its end among them (C11 6.7.9p14).
fn text_room(t: &CType, len: usize) -> u32
    ensures { (bytes : List ℕ) → length bytes ≡ len → text_room (type_tree t.now) bytes ≡ result }
{
    match t {
        CType::Int => 0,
        CType::Unsigned => 0,
        CType::Char => 0,
        CType::Void => 0,
        CType::Pointer(_) => 0,
        CType::Array(_, n) => {
            if len < *n as usize {
                len as u32 + 1
            } else {
                *n
            }
        }
        CType::Struct(_) => 0,
    }
}

/// A text that initialises an array is copied from its block.
fn text_set(
    alloc: Global,
    k: &Known<'_>,
    t: &CType,
    to: Expression,
    e: &Expr,
) -> Result<Effect, NoMemory>
    ensures { SetsText k.now t.now to e.now result }
{
    let text = text_of(e)?;
    let size = text_room(t, text.bytes().len());
    let a = typed(alloc, k, e)?;
    let from = a.form.into_address()?;
    Ok(Effect::Copy {
        size,
        alignment: 1,
        to,
        from,
    })
}

/// A scalar or a struct is initialised as by an assignment whose value is discarded (C11 6.7.9p11,
/// p13).
fn assigned_set(alloc: Global, k: &Known<'_>, part: Typed<'_>, e: &Expr) -> Result<Effect, NoMemory>
    ensures { SetsPart k.now part.entry e.now result }
{
    let a = typed(alloc, k, e)?;
    let of = part.of;
    let form = plain_form(alloc, k.env, part, a)?;
    form.into_effect(alloc, of)
}

/// The address of the part of the object that begins at this offset.
fn part_at(alloc: Global, base: Object, offset: u32) -> Result<Expression, NoMemory>
    ensures { Makes expression_tree (member offset (object_address base)) result }
{
    let base = Expression::PointerTo(base);
    Ok(Expression::Member(offset, Box::new(alloc, base)?))
}

/// The part of the object.
fn piece_set(alloc: Global, k: &Known<'_>, base: Object, p: Piece<'_>) -> Result<Effect, NoMemory>
    ensures { SetsPiece k.now base p.entry result }
{
    let to = part_at(alloc, base, p.offset)?;
    if is_array(p.of) {
        text_set(alloc, k, p.of, to, p.expression)
    } else {
        let part = Typed {
            of: p.of,
            form: Form::Lvalue(Lvalue::Object(Box::new(alloc, to)?)),
        };
        assigned_set(alloc, k, part, p.expression)
    }
}

/// The parts of the object, in order.
fn pieces_effects(
    alloc: Global,
    k: &Known<'_>,
    base: Object,
    ps: &[Piece<'_>],
) -> Result<Vec<Effect>, NoMemory>
    ensures { SetsPieces (listed effects_tree) k.now base ps.now result }
{
    let mut all = Vec::new(alloc);
    for p in ps {
        all.push(piece_set(alloc, k, base, *p)?)?;
    }
    Ok(all)
}

fn pieces_set(
    alloc: Global,
    k: &Known<'_>,
    base: Object,
    ps: &[Piece<'_>],
) -> Result<Effect, NoMemory>
    ensures { SetsPieces effect_tree k.now base ps.now result }
{
    let all = pieces_effects(alloc, k, base, ps)?;
    Ok(Effect::Each(all))
}

/// First zeros and null pointers everywhere, then the expressions in order (C11 6.7.9p19, p21).
fn filled(
    alloc: Global,
    k: &Known<'_>,
    t: &CType,
    base: Object,
    i: &Initialiser,
) -> Result<Effect, NoMemory>
    ensures { Fills k.now t.now base i.now result }
{
    let cells = blank_of(alloc, k.env, t)?;
    let ps = pieces(alloc, k.env, i, t, 0)?;
    let sets = pieces_set(alloc, k, base, &ps)?;
    let fill = Effect::Fill(cells, Expression::PointerTo(base));
    Ok(Effect::InOrder(Box::new(alloc, fill)?, Box::new(alloc, sets)?))
}

fn pointed(e: &Expression) -> Result<Object, NoMemory>
    ensures { Equals object_address (expression_tree e.now) result }
{
    match e {
        Expression::PointerTo(o) => Ok(*o),
        _ => Err(NoMemory),
    }
}

/// The object that a placed local is.
fn object_of(l: &Lvalue) -> Result<Object, NoMemory>
    ensures { Gives object_address (address_in (lvalue_tree l.now)) result }
{
    match l {
        Lvalue::Variable(_) => Err(NoMemory),
        Lvalue::Object(address) => pointed(address),
    }
}

fn object_set(
    alloc: Global,
    k: &Known<'_>,
    t: &CType,
    l: Lvalue,
    i: &Initialiser,
) -> Result<Effect, NoMemory>
    ensures { SetsLocal object_set_known k.now t.now l i.now result }
{
    let base = object_of(&l)?;
    filled(alloc, k, t, base, i)
}

/// The local with its initialiser.
fn local_set(
    alloc: Global,
    k: &Known<'_>,
    t: &CType,
    l: Lvalue,
    i: &Initialiser,
) -> Result<Effect, NoMemory>
    ensures { SetsLocal local_set_known k.now t.now l i.now result }
{
    match i {
        Initialiser::Value(e) => {
            if is_array(t) {
                object_set(alloc, k, t, l, i)
            } else {
                let part = Typed {
                    of: t,
                    form: Form::Lvalue(l),
                };
                assigned_set(alloc, k, part, e)
            }
        }
        Initialiser::List(_) => object_set(alloc, k, t, l, i),
    }
}

fn initialised(
    alloc: Global,
    k: &Known<'_>,
    node: u32,
    t: &CType,
    i: &Option<Initialiser>,
) -> Result<Effect, NoMemory>
    ensures { Initialises k.now node t.now i.now result }
{
    match i {
        None => Ok(Effect::Nothing),
        Some(i) => {
            let l = local_lvalue(alloc, k.locals, node)?;
            local_set(alloc, k, t, l, i)
        }
    }
}

/// What the declaration of a variable does.
fn variable(alloc: Global, k: &Known<'_>, v: &Variable) -> Result<Effect, NoMemory>
    ensures { Knows effect_tree variable_known k.now (variable_tree v.now) result }
{
    let node = v.declarator.node.id;
    let t = k.type_at(node)?;
    initialised(alloc, k, node, t, &v.initialiser)
}

fn variables_effects(alloc: Global, k: &Known<'_>, vs: &[Variable]) -> Result<Vec<Effect>, NoMemory>
    ensures { Knows (listed effects_tree) variables_known k.now (map variable_tree vs.now) result }
{
    let mut all = Vec::new(alloc);
    for v in vs {
        all.push(variable(alloc, k, v)?)?;
    }
    Ok(all)
}

/// What the declarations of variables do, in order.
pub fn variables(alloc: Global, k: &Known<'_>, vs: &[Variable]) -> Result<Effect, NoMemory>
    ensures { Knows effect_tree variables_known k.now (map variable_tree vs.now) result }
{
    let all = variables_effects(alloc, k, vs)?;
    Ok(Effect::Each(all))
}
