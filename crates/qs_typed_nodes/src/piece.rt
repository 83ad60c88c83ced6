// Which expression initialises which part of an object (C11 6.7.9p17 to p20).
ghost use Rattle.std.specs.Prelude.{◌≡◌, ◌*◌, [], ◌∷◌, IfOk};
ghost use Rattle.qs_meaning.specs.Initialisers.{part_offset, pieces};
ghost use Rattle.qs_syntax.specs.TreeOf.{initialiser_tree, initialisers_tree};
ghost use Rattle.qs_types.specs.EnvOf.{env_tree};
ghost use Rattle.qs_types.specs.InitialiserRules.{member_at, part_type};
ghost use Rattle.qs_types.specs.Layout.{struct_of};
ghost use Rattle.qs_types.specs.TypeOf.{type_tree};
ghost use Rattle.qs_typed_nodes.specs.PieceOf.{Divides, list_pieces, piece_of, pieces_tree};
ghost use Rattle.qs_typed_forms.specs.Results.{Gives, Makes, itself};
ghost use Rattle.qs_typed_nodes.specs.TypesOf.{lent_type};

use crate::structs::{offset_at, struct_members};
use qs_base::{NoMemory, count, product, sum};
use qs_syntax::{Expr, Initialiser};
use qs_typed_forms::size_in;
use qs_types::{CType, Env};
use std::alloc::Global;

/// An expression, and the part of the object that it initialises.
#[derive(Clone, Copy)]
pub struct Piece<'a> {
    /// where the part begins
    pub offset: u32,
    /// the type of the part
    pub of: &'a CType,
    /// the expression
    pub expression: &'a Expr,
}

/// The type of a member by its number.
#[tactic(auto, using(crate::proofs::MemberPlaces::member_there))]
fn member_at(env: &Env, k: u32, i: usize) -> Result<&CType, NoMemory>
    ensures { Gives lent_type (member_at (struct_of (env_tree env.now) k) i) result }
{
    let members = struct_members(env, k)?;
    match members.get_index(i) {
        None => Err(NoMemory),
        Some((_, t)) => Ok(t),
    }
}

/// The type of a part by its number.
fn part_type<'a>(env: &'a Env, t: &'a CType, i: usize) -> Result<&'a CType, NoMemory>
    ensures { Gives lent_type (part_type (env_tree env.now) (type_tree t.now) i) result }
{
    match t {
        CType::Int => Err(NoMemory),
        CType::Unsigned => Err(NoMemory),
        CType::Char => Err(NoMemory),
        CType::Void => Err(NoMemory),
        CType::Pointer(_) => Err(NoMemory),
        CType::Array(element, n) => {
            if i < *n as usize {
                Ok(element)
            } else {
                Err(NoMemory)
            }
        }
        CType::Struct(k) => member_at(env, *k, i),
    }
}

/// Where a part begins, by its number.
fn part_offset(env: &Env, t: &CType, i: usize) -> Result<u32, NoMemory>
    ensures { Gives itself (part_offset (env_tree env.now) (type_tree t.now) i) result }
{
    match t {
        CType::Int => Err(NoMemory),
        CType::Unsigned => Err(NoMemory),
        CType::Char => Err(NoMemory),
        CType::Void => Err(NoMemory),
        CType::Pointer(_) => Err(NoMemory),
        CType::Array(element, _) => {
            let size = size_in(env, element)?;
            product(size, count(i)?)
        }
        CType::Struct(k) => offset_at(env, *k, i),
    }
}

fn one_piece<'a>(
    alloc: Global,
    of: &'a CType,
    offset: u32,
    expression: &'a Expr,
) -> Result<Vec<Piece<'a>>, NoMemory>
    ensures { Makes pieces_tree (piece_of offset of.now expression.now ∷ []) result }
{
    let mut pieces = Vec::new(alloc);
    pieces.push(Piece {
        offset,
        of,
        expression,
    })?;
    Ok(pieces)
}

/// The pieces of the part of this type that begins here.
#[cycle(pieces)]
pub fn pieces<'a>(
    alloc: Global,
    env: &'a Env,
    i: &'a Initialiser,
    t: &'a CType,
    offset: u32,
) -> Result<Vec<Piece<'a>>, NoMemory>
    ensures { Divides pieces env.now t.now offset (initialiser_tree i.now) result }
{
    match i {
        Initialiser::Value(e) => one_piece(alloc, t, offset, e),
        Initialiser::List(list) => pieces_from(alloc, env, &list.items, t, offset),
    }
}

#[tactic(auto, using(crate::proofs::Loops::from_turn))]
#[cycle(pieces)]
fn pieces_from<'a>(
    alloc: Global,
    env: &'a Env,
    is: &'a [Initialiser],
    t: &'a CType,
    offset: u32,
) -> Result<Vec<Piece<'a>>, NoMemory>
    ensures { Divides list_pieces env.now t.now offset (initialisers_tree is.now) result }
{
    let mut all = Vec::new(alloc);
    for n in 0..is.len() {
        let u = part_type(env, t, n)?;
        let at = part_offset(env, t, n)?;
        let now = pieces(alloc, env, &is[n], u, sum(offset, at)?)?;
        all.extend_from_slice(&now)?;
    }
    Ok(all)
}
