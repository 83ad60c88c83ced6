// Initialisers (C11 6.7.9).
ghost use Rattle.std.specs.Prelude.{◌≡◌, Some, IfOk, OnOk, option_map, true};
ghost use Rattle.qs_syntax.specs.TreeOf.{expr_tree};
ghost use Rattle.qs_types.specs.EnvOf.{env_tree};
ghost use Rattle.qs_types.specs.Expressions.{type_of};
ghost use Rattle.qs_types.specs.InitialiserRules as rules;
ghost use Rattle.qs_types.specs.Layout.{struct_of};
ghost use Rattle.qs_types.specs.Declarations.{text_of};
ghost use Rattle.qs_types.specs.Sites.{may_hold};
ghost use Rattle.qs_types.specs.TypeOf.{type_tree};
ghost use Rattle.qs_typing_findings.specs.ContextOf.{context_tree};
ghost use Rattle.qs_typing_findings.specs.EntityOf.{entity_at};
ghost use Rattle.qs_typing.specs.Initialisers.{Fills, Initialises, WalksList, WalksValue, all_fit};
ghost use Rattle.qs_typing.specs.Initialisers.{all_typed, fits, fits_as, is_char, is_constant_at};
ghost use Rattle.qs_typing.specs.Initialisers.{is_typed, is_value_typed, list_fits_at};
ghost use Rattle.qs_typing.specs.Initialisers.{list_fits_in, option_takes_list, type_at};
ghost use Rattle.qs_typing.specs.Initialisers.{value_fits};

use crate::declared_types::text_length;
use crate::lengths::constant;
use qs_base::NoMemory;
use qs_syntax::{Expr, Initialiser, InitialiserList, Shape};
use qs_syntax_vocabulary::UnaryOperator;
use qs_types::{CType, Env, Rule, is_array, is_null_constant, is_scalar, is_struct};
use qs_typing_findings::{
    Context, Entity, Position, Walk, decayed, is_assignable, is_lvalue, keeps,
};
use std::alloc::Global;

/// Whether an initialiser has a type, and whether it fits.
#[derive(Clone, Copy)]
pub struct Fit {
    /// Whether it has a type; a list counts as having one.
    pub is_typed: bool,
    /// Whether it fits, what stands in a list aside.
    pub fits: bool,
}

// ---- parts of an object (6.7.9p17)

/// The type of a member by its number.
fn member_at(types: &Env, k: u32, i: usize) -> Option<&CType>
    ensures { type_at result ≡ rules.member_at (struct_of (env_tree types.now) k) i }
{
    let members = types.structs().get(k as usize)?.members.as_ref()?;
    let (_, t) = members.get_index(i)?;
    Some(t)
}

/// The type of a part by its number.
fn part_type<'a>(types: &'a Env, t: &'a CType, i: usize) -> Option<&'a CType>
    ensures { type_at result ≡ rules.part_type (env_tree types.now) (type_tree t.now) i }
{
    match t {
        CType::Int => None,
        CType::Unsigned => None,
        CType::Char => None,
        CType::Void => None,
        CType::Pointer(_) => None,
        CType::Array(element, n) => { if i < *n as usize { Some(element) } else { None } }
        CType::Struct(k) => member_at(types, *k, i),
    }
}

fn option_part<'a>(types: &'a Env, t: Option<&'a CType>, i: usize) -> Option<&'a CType>
    ensures { type_at result ≡ rules.option_part (env_tree types.now) (type_at t.entry) i }
{
    part_type(types, t?, i)
}

// ---- expressions

fn is_char(t: &CType) -> bool
    ensures { result ≡ is_char (type_tree t.now) }
{
    match t {
        CType::Int => false,
        CType::Unsigned => false,
        CType::Char => true,
        CType::Void => false,
        CType::Pointer(_) => false,
        CType::Array(_, _) => false,
        CType::Struct(_) => false,
    }
}

/// Whether a text of so many bytes fits the type (C11 6.7.9p14).
fn holds_text(t: &CType, e: &Expr) -> bool
    ensures { result ≡ rules.holds_text (type_tree t.now) (text_of (expr_tree e.now)) }
{
    match t {
        CType::Int => false,
        CType::Unsigned => false,
        CType::Char => false,
        CType::Void => false,
        CType::Pointer(_) => false,
        CType::Array(element, n) => match text_length(e) {
            None => false,
            Some(length) => is_char(element) && length <= *n as usize,
        },
        CType::Struct(_) => false,
    }
}

/// The same, where there is a type.
fn may_hold(t: Option<&CType>, e: &Expr) -> bool
    ensures { result ≡ may_hold (type_at t.entry) (expr_tree e.now) }
{
    match t {
        None => false,
        Some(t) => holds_text(t, e),
    }
}

fn is_file_variable(entity: Option<&Entity>) -> bool
    ensures { result ≡ rules.is_file_variable (entity_at entity.entry) }
{
    match entity {
        None => false,
        Some(Entity::LocalVariable(_, _)) => false,
        Some(Entity::FileVariable(_, _)) => true,
        Some(Entity::Function { .. }) => false,
        Some(Entity::Given(_)) => false,
    }
}

fn names_file_variable(c: &Context, e: &Expr) -> bool
    ensures { result ≡ rules.names_file_variable (context_tree c.now) (expr_tree e.now) }
{
    match &e.shape {
        Shape::Constant(_, _) => false,
        Shape::Text(_) => false,
        Shape::Name(x) => is_file_variable(c.find(x)),
        Shape::Unary(_, _) => false,
        Shape::Step(_, _) => false,
        Shape::Cast(_, _) => false,
        Shape::SizeofType(_) => false,
        Shape::SizeofExpr(_) => false,
        Shape::Binary { .. } => false,
        Shape::Assign { .. } => false,
        Shape::Conditional { .. } => false,
        Shape::Comma(_, _) => false,
        Shape::Subscript(_, _) => false,
        Shape::Member { .. } => false,
        Shape::Call(_, _) => false,
    }
}

fn is_address_of(c: &Context, operator: UnaryOperator, a: &Expr) -> bool
    ensures { result ≡ rules.is_address_of (context_tree c.now) operator (expr_tree a.now) }
{
    match operator {
        UnaryOperator::Address => names_file_variable(c, a),
        UnaryOperator::Indirect => false,
        UnaryOperator::Plus => false,
        UnaryOperator::Minus => false,
        UnaryOperator::Complement => false,
        UnaryOperator::Not => false,
    }
}

/// The name of an array at file scope, or `&` of a variable there.
fn is_address(c: &Context, e: &Expr, t: &CType) -> bool
    ensures { result ≡ rules.is_address (context_tree c.now) (expr_tree e.now) (type_tree t.now) }
{
    match &e.shape {
        Shape::Constant(_, _) => false,
        Shape::Text(_) => false,
        Shape::Name(x) => is_array(t) && is_file_variable(c.find(x)),
        Shape::Unary(operator, a) => is_address_of(c, *operator, a),
        Shape::Step(_, _) => false,
        Shape::Cast(_, _) => false,
        Shape::SizeofType(_) => false,
        Shape::SizeofExpr(_) => false,
        Shape::Binary { .. } => false,
        Shape::Assign { .. } => false,
        Shape::Conditional { .. } => false,
        Shape::Comma(_, _) => false,
        Shape::Subscript(_, _) => false,
        Shape::Member { .. } => false,
        Shape::Call(_, _) => false,
    }
}

/// A constant expression, a null constant, a text, or an address (C11 6.7.9p4).
fn is_constant(c: &Context, e: &Expr, t: &CType) -> bool
    requires { Some (type_tree t.now) ≡ type_of (context_tree c.now) (expr_tree e.now) }
    ensures { result ≡ is_constant_at c.now e.now t.now }
{
    constant(c, e, t).is_some()
        || is_null_constant(e)
        || text_length(e).is_some()
        || is_address(c, e, t)
}

/// Whether an expression of type `u` fits an object of type `t`.
fn fits_variable(at_file_scope: bool, c: &Context, t: &CType, e: &Expr, u: CType) -> bool
    requires { Some (type_tree u) ≡ type_of (context_tree c.now) (expr_tree e.now) }
    ensures { result ≡ fits_as at_file_scope c.now t.now e.now u }
{
    let holds = holds_text(t, e);
    let may_stand = !at_file_scope || is_constant(c, e, &u);
    let fits_struct = !at_file_scope && (is_struct(t) && (t.same(&u) && is_lvalue(e)));
    let fits_scalar = is_scalar(t) && (is_assignable(t, e, &decayed(u)) && may_stand);
    holds || (fits_scalar || fits_struct)
}

fn value_fits(
    at_file_scope: bool,
    c: &Context,
    t: Option<&CType>,
    e: &Expr,
    u: Option<CType>,
) -> bool
    requires { option_map type_tree u ≡ type_of (context_tree c.now) (expr_tree e.now) }
    ensures { result ≡ value_fits at_file_scope c.now t.entry e.now }
{
    match t {
        None => true,
        Some(t) => match u {
            None => false,
            Some(u) => fits_variable(at_file_scope, c, t, e, u),
        },
    }
}

// ---- lists

fn takes_list(t: &CType) -> bool
    ensures { result ≡ rules.takes_list (type_tree t.now) }
{
    is_array(t) || is_struct(t)
}

/// How many parts an object has.
fn count_of_parts(types: &Env, t: &CType) -> usize
    ensures { result ≡ rules.count_of_parts (env_tree types.now) (type_tree t.now) }
{
    match t {
        CType::Int => 0,
        CType::Unsigned => 0,
        CType::Char => 0,
        CType::Void => 0,
        CType::Pointer(_) => 0,
        CType::Array(_, n) => *n as usize,
        CType::Struct(k) => count_of_members(types, *k),
    }
}

fn count_of_members(types: &Env, k: u32) -> usize
    ensures { result ≡ rules.count_of_members (struct_of (env_tree types.now) k) }
{
    match types.structs().get(k as usize) {
        None => 0,
        Some(structure) => match &structure.members {
            None => 0,
            Some(members) => members.len(),
        },
    }
}

/// Whether a list of so many initialisers fits, where there is a type.
#[tactic(auto, using(crate::proofs::DeclarationTypes::count_of))]
fn list_fits(types: &Env, t: Option<&CType>, items: &[Initialiser]) -> bool
    ensures { result ≡ list_fits_in types.now t.entry items.now }
{
    match t {
        None => true,
        Some(t) => takes_list(t) && items.len() <= count_of_parts(types, t),
    }
}

fn takes_list_of(t: Option<&CType>) -> bool
    ensures { result ≡ option_takes_list (type_at t.entry) }
{
    match t {
        None => false,
        Some(t) => takes_list(t),
    }
}

/// Walks over an initialiser of an object, or of a part, of type `t`.
#[cycle(initialiser)]
pub fn walk_initialiser(
    alloc: Global,
    at_file_scope: bool,
    c: &Context,
    t: Option<&CType>,
    i: &Initialiser,
    walk: &mut Walk,
) -> Result<Fit, NoMemory>
    ensures typed { IfOk result (λ f. f.is_typed ≡ is_typed c.now i.now) }
    ensures fits { IfOk result (λ f. f.fits ≡ fits at_file_scope c.now t.entry i.now) }
    ensures walked { OnOk result (Initialises at_file_scope c.now t.entry i.now walk.old walk.new) }
{
    match i {
        Initialiser::Value(e) => walk_value(alloc, at_file_scope, c, t, e, walk),
        Initialiser::List(l) => walk_list(alloc, at_file_scope, c, t, l, walk),
    }
}

/// The same, of an expression.
pub fn walk_value(
    alloc: Global,
    at_file_scope: bool,
    c: &Context,
    t: Option<&CType>,
    e: &Expr,
    walk: &mut Walk,
) -> Result<Fit, NoMemory>
    ensures typed { IfOk result (λ f. f.is_typed ≡ is_value_typed c.now e.now) }
    ensures fits { IfOk result (λ f. f.fits ≡ value_fits at_file_scope c.now t.entry e.now) }
    ensures walked { OnOk result (WalksValue at_file_scope c.now t.entry e.now walk.old walk.new) }
{
    let fills_array = at_file_scope && may_hold(t, e);
    let u = walk.site(alloc, c, Position::Whole, fills_array, e)?;
    let is_typed = u.is_some();
    let fits = value_fits(at_file_scope, c, t, e, u);
    Ok(Fit { is_typed, fits })
}

/// The same, of a list.
#[cycle(initialiser)]
pub fn walk_list(
    alloc: Global,
    at_file_scope: bool,
    c: &Context,
    t: Option<&CType>,
    l: &InitialiserList,
    walk: &mut Walk,
) -> Result<Fit, NoMemory>
    ensures typed { IfOk result (λ f. f.is_typed ≡ true) }
    ensures fits { IfOk result (λ f. f.fits ≡ list_fits_at at_file_scope c.now t.entry l.now) }
    ensures walked { OnOk result (WalksList at_file_scope c.now t.entry l.now walk.old walk.new) }
{
    walk.open()?;
    let elements = walk_elements(alloc, at_file_scope, c, t, &l.items, walk)?;
    if takes_list_of(t) && elements.is_typed {
        walk.judge(l.node, &[keeps(Rule::InitialiserType, elements.fits)]);
    }
    Ok(Fit {
        is_typed: true,
        fits: list_fits(c.structs(), t, &l.items),
    })
}

/// Walks over the initialisers in a list, and tells whether all have types and fit.
#[cycle(initialiser)]
fn walk_elements(
    alloc: Global,
    at_file_scope: bool,
    c: &Context,
    t: Option<&CType>,
    items: &[Initialiser],
    walk: &mut Walk,
) -> Result<Fit, NoMemory>
    ensures typed { IfOk result (λ f. f.is_typed ≡ all_typed c.now items.now) }
    ensures fits { IfOk result (λ f. f.fits ≡ all_fit at_file_scope c.now t.entry items.now) }
    ensures walked { OnOk result (Fills at_file_scope c.now t.entry items.now walk.old walk.new) }
{
    let mut all = Fit {
        is_typed: true,
        fits: true,
    };
    for i in 0..items.len() {
        let part = option_part(c.structs(), t, i);
        let one = walk_initialiser(alloc, at_file_scope, c, part, &items[i], walk)?;
        all = Fit {
            is_typed: all.is_typed && one.is_typed,
            fits: all.fits && one.fits,
        };
    }
    Ok(all)
}
