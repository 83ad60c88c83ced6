// The types that declarations give (C11 6.7), and the rules that their nodes keep.
ghost use Rattle.std.specs.Prelude.{◌≡◌, ◌+◌, IfOk, None, Some, length, not, option_map};
ghost use Rattle.std.specs.Prelude.{if◌then◌else◌};
ghost use Rattle.qs_syntax.specs.TreeOf.{expr_tree, initialiser_tree, lengths_tree, list_tree};
ghost use Rattle.qs_types.specs.Contexts.{is_void_type};
ghost use Rattle.qs_types.specs.Conversions.{decayed};
ghost use Rattle.qs_types.specs.Declarations as declarations;
ghost use Rattle.qs_types.specs.EnvOf.{env_tree};
ghost use Rattle.qs_types.specs.Layout.{is_sized};
ghost use Rattle.qs_types.specs.Types.{pointer};
ghost use Rattle.qs_types.specs.TypeOf.{type_tree};
ghost use Rattle.qs_typing_findings.specs.ContextOf.{context_tree};
ghost use Rattle.qs_typing.specs.DeclaredOf.{declared_tree, is_incomplete, option_type};
ghost use Rattle.qs_typing.specs.DeclaredOf.{tests_and_type};
ghost use Rattle.qs_typing.specs.Declares.{AreWholeLengths, IsArrayParameter, IsDeclared};
ghost use Rattle.qs_typing.specs.Declares.{IsDeclaredOver, IsObject, IsObjectType, IsParameter};
ghost use Rattle.qs_typing.specs.Declares.{IsPlain, IsPlainParameter, IsPointer, IsSizedByTests};
ghost use Rattle.qs_typing.specs.Declares.{IsTypeName, IsVariable};
ghost use Rattle.qs_typing.specs.LengthsOf.{AreTyped, AreValued, ElementsAreTyped};
ghost use Rattle.qs_typing.specs.LengthsOf.{ElementsAreValued, is_length, is_length_typed};

use crate::lengths::{ArrayLengths, ParameterLengths, arrays};
use qs_base::NoMemory;
use qs_syntax::{
    Base, Declarator, Expr, Initialiser, InitialiserList, Lengths, Parameter, Shape, TypeName,
    Variable,
};
use qs_types::{CType, Env, Rule, extent_of, is_complete, is_void};
use qs_typing_findings::{Context, Test, copied, decayed, keeps, starred, type_or_void, violates};
use std::alloc::Global;

/// The tests of a node that declares a type, and the type where it breaks none of their rules.
#[derive(Drop)]
pub struct Declared {
    /// The tests.
    pub tests: Vec<Test>,
    /// The type.
    pub of: Option<CType>,
}

/// A length has no type: the node breaks no rule, and there is no type.
pub fn undeclared(alloc: Global) -> Declared
    ensures { declared_tree result ≡ declarations.undeclared }
{
    Declared {
        tests: Vec::new(alloc),
        of: None,
    }
}

fn with_tests(alloc: Global, tests: &[Test], of: Option<CType>) -> Result<Declared, NoMemory>
    ensures { IfOk result (λ d. declared_tree d ≡ tests_and_type tests.now of) }
{
    Ok(Declared {
        tests: Vec::from_slice(alloc, tests)?,
        of,
    })
}

fn object_type(alloc: Global, element: CType, lengths: &Option<Vec<u32>>) -> Result<CType, NoMemory>
    ensures { IfOk result (IsObjectType element lengths.now) }
{
    match lengths {
        None => Ok(CType::Void),
        Some(ns) => arrays(alloc, element, ns),
    }
}

/// Whether a declaration begins with `void`.
fn is_void_type(base: &Option<CType>) -> bool
    ensures { result ≡ is_void_type (option_type base.now) }
{
    match base {
        None => false,
        Some(t) => is_void(t),
    }
}

/// Whether objects may not have elements of this type, by whether its base is `void`, and known
/// (C11 6.7p7, 6.7.6.2p1).
fn is_incomplete(structs: &Env, is_void: bool, known: bool, element: &CType) -> bool
    ensures { result ≡ is_incomplete (env_tree structs.now) is_void known (type_tree element.now) }
{
    is_void || known && !is_complete(structs, element)
}

fn is_large(structs: &Env, t: &CType) -> bool
    ensures { result ≡ not (is_sized (env_tree structs.now) (type_tree t.now)) }
{
    extent_of(structs, t).is_none()
}

fn type_unless(breaks: bool, t: CType) -> Option<CType>
    ensures { option_map type_tree result ≡ (if breaks then None else Some (type_tree t)) }
{
    if breaks { None } else { Some(t) }
}

/// What declares an object of this type, by the tests on its elements and lengths.
fn with_size_tests(
    alloc: Global,
    structs: &Env,
    known: bool,
    incomplete: bool,
    has_lengths: bool,
    t: CType,
) -> Result<Declared, NoMemory>
    ensures { IfOk result (IsSizedByTests structs.now known incomplete has_lengths t) }
{
    let breaks = !known || (incomplete || !has_lengths);
    let large = !breaks && is_large(structs, &t);
    with_tests(
        alloc,
        &[
            keeps(Rule::UnknownTag, known),
            violates(Rule::IncompleteType, incomplete),
            keeps(Rule::ArrayLength, has_lengths),
            violates(Rule::LargeType, large),
        ],
        type_unless(breaks || large, t),
    )
}

/// What declares an object of these lengths, where the declaration begins with this type.
fn object_over(
    alloc: Global,
    c: &Context,
    base: Option<CType>,
    stars: u32,
    lengths: Option<Vec<u32>>,
) -> Result<Declared, NoMemory>
    ensures { IfOk result (IsObject c.now base stars lengths) }
{
    let known = base.is_some();
    let is_void = is_void_type(&base);
    let element = type_or_void(starred(alloc, base, stars)?);
    let incomplete = is_incomplete(c.structs(), is_void, known, &element);
    let has_lengths = lengths.is_some();
    let t = object_type(alloc, element, &lengths)?;
    with_size_tests(alloc, c.structs(), known, incomplete, has_lengths, t)
}

/// What a declarator without brackets declares, where that may be any type but `void`.
fn plain_declared(alloc: Global, base: Option<CType>, stars: u32) -> Result<Declared, NoMemory>
    ensures { IfOk result (IsPlain base stars) }
{
    let known = base.is_some();
    let is_void = is_void_type(&base);
    let t = type_or_void(starred(alloc, base, stars)?);
    with_tests(
        alloc,
        &[
            keeps(Rule::UnknownTag, known),
            violates(Rule::IncompleteType, is_void),
        ],
        if known && !is_void { Some(t) } else { None },
    )
}

// ---- variables and members

/// The lengths with the first, where the brackets are empty, from elsewhere.
fn whole_lengths(
    l: &Lengths,
    first: Option<u32>,
    given: Option<Vec<u32>>,
) -> Result<Option<Vec<u32>>, NoMemory>
    ensures { IfOk result (AreWholeLengths l.now first given) }
{
    match given {
        None => Ok(None),
        Some(mut ns) => {
            if !l.is_open {
                return Ok(Some(ns));
            }
            match first {
                None => Ok(None),
                Some(n) => {
                    ns.insert(0, n)?;
                    Ok(Some(ns))
                }
            }
        }
    }
}

/// What a declarator declares, where its lengths are these, and the declaration begins with this
/// type.
fn declared_over(
    alloc: Global,
    c: &Context,
    base: Option<CType>,
    d: &Declarator,
    first: Option<u32>,
    lengths: ArrayLengths,
) -> Result<Declared, NoMemory>
    requires typed { AreTyped c.now d.now.lengths.given.items lengths }
    requires values { AreValued c.now d.now.lengths.given.items lengths }
    ensures { IfOk result (IsDeclaredOver c.now base d.now first) }
{
    if !lengths.all_typed {
        return Ok(undeclared(alloc));
    }
    let ns = whole_lengths(&d.lengths, first, lengths.values)?;
    object_over(alloc, c, base, d.stars, ns)
}

/// What a variable or a member declares, where its lengths are these.
pub fn declarator_declared(
    alloc: Global,
    c: &Context,
    base: &Base,
    d: &Declarator,
    first: Option<u32>,
    lengths: ArrayLengths,
) -> Result<Declared, NoMemory>
    requires typed { AreTyped c.now d.now.lengths.given.items lengths }
    requires values { AreValued c.now d.now.lengths.given.items lengths }
    ensures { IfOk result (IsDeclared c.now base.now d.now first) }
{
    let base = c.base_type(alloc, base)?;
    declared_over(alloc, c, base, d, first, lengths)
}

fn has_brackets(l: &Lengths) -> bool
    ensures { result ≡ declarations.has_brackets (lengths_tree l.now) }
{
    l.is_open || !l.given.is_empty()
}

/// What a type name declares (C11 6.7.8), where its lengths are these.
pub fn type_name_declared(
    alloc: Global,
    c: &Context,
    base: &Option<CType>,
    d: &Declarator,
    lengths: ArrayLengths,
) -> Result<Declared, NoMemory>
    requires typed { AreTyped c.now d.now.lengths.given.items lengths }
    requires values { AreValued c.now d.now.lengths.given.items lengths }
    ensures { IfOk result (IsTypeName c.now base.now d.now) }
{
    let base = copied(alloc, base)?;
    if has_brackets(&d.lengths) {
        return declared_over(alloc, c, base, d, None, lengths);
    }
    plain_declared(alloc, base, d.stars)
}

/// The bytes of a text.
pub fn text_length(e: &Expr) -> Option<usize>
    ensures { result ≡ option_map length (declarations.text_of (expr_tree e.now)) }
{
    match &e.shape {
        Shape::Constant(_, _) => None,
        Shape::Text(text) => Some(text.bytes().len()),
        Shape::Name(_) => None,
        Shape::Unary(_, _) => None,
        Shape::Step(_, _) => None,
        Shape::Cast(_, _) => None,
        Shape::SizeofType(_) => None,
        Shape::SizeofExpr(_) => None,
        Shape::Binary { .. } => None,
        Shape::Assign { .. } => None,
        Shape::Conditional { .. } => None,
        Shape::Comma(_, _) => None,
        Shape::Subscript(_, _) => None,
        Shape::Member { .. } => None,
        Shape::Call(_, _) => None,
    }
}

fn narrowed(n: usize) -> Result<u32, NoMemory>
    ensures { IfOk result (λ m. m ≡ n) }
{
    if n > u32::MAX as usize {
        return Err(NoMemory);
    }
    Ok(n as u32)
}

#[tactic(auto, using(crate::proofs::DeclarationTypes::list_counts))]
fn list_length(l: &InitialiserList) -> Result<u32, NoMemory>
    ensures { IfOk result (λ n. Some n ≡ declarations.length_by (Some (list_tree l.now))) }
{
    narrowed(l.items.len())
}

/// The length that an initialiser gives (C11 6.7.9p22).
fn length_by(i: &Option<Initialiser>) -> Result<Option<u32>, NoMemory>
    ensures { IfOk result (λ n. n ≡ declarations.length_by (option_map initialiser_tree i.now)) }
{
    match i {
        None => Ok(None),
        Some(Initialiser::Value(e)) => match text_length(e) {
            None => Ok(None),
            Some(n) => Ok(Some(text_size(n)?)),
        },
        Some(Initialiser::List(l)) => Ok(Some(list_length(l)?)),
    }
}

/// The bytes of a text with its last zero.
fn text_size(n: usize) -> Result<u32, NoMemory>
    ensures { IfOk result (λ m. m ≡ n + 1) }
{
    if n >= u32::MAX as usize {
        return Err(NoMemory);
    }
    Ok(n as u32 + 1)
}

/// What a variable declares, where its lengths are these.
pub fn variable_declared(
    alloc: Global,
    c: &Context,
    base: &Base,
    v: &Variable,
    lengths: ArrayLengths,
) -> Result<Declared, NoMemory>
    requires typed { AreTyped c.now v.now.declarator.lengths.given.items lengths }
    requires values { AreValued c.now v.now.declarator.lengths.given.items lengths }
    ensures { IfOk result (IsVariable c.now base.now v.now) }
{
    let first = length_by(&v.initialiser)?;
    declarator_declared(alloc, c, base, &v.declarator, first, lengths)
}

// ---- parameters (6.7.6.3)

fn pointer_to(alloc: Global, t: Option<CType>) -> Result<Option<CType>, NoMemory>
    ensures { IfOk result (λ r. option_type r ≡ option_map pointer (option_type t)) }
{
    match t {
        None => Ok(None),
        Some(t) => Ok(Some(CType::Pointer(Box::new(alloc, t)?))),
    }
}

/// What a pointer to elements of these lengths declares.
fn pointer_declared(
    alloc: Global,
    c: &Context,
    name: &TypeName,
    lengths: Option<Vec<u32>>,
) -> Result<Declared, NoMemory>
    ensures { IfOk result (IsPointer c.now name.now lengths) }
{
    let base = c.base_type(alloc, &name.base)?;
    let elements = object_over(alloc, c, base, name.stars, lengths)?;
    Ok(Declared {
        tests: elements.tests,
        of: pointer_to(alloc, elements.of)?,
    })
}

/// What a parameter that is written as an array declares, where the lengths of its elements have
/// types.
fn array_parameter(
    alloc: Global,
    c: &Context,
    p: &Parameter,
    lengths: ParameterLengths,
) -> Result<Declared, NoMemory>
    requires valid { lengths.first_valid ≡ is_length c.now p.now.lengths }
    requires values { ElementsAreValued c.now p.now.lengths lengths.rest }
    ensures { IfOk result (IsArrayParameter c.now p.now lengths.first_typed) }
{
    let ParameterLengths {
        first_typed,
        first_valid,
        rest,
    } = lengths;
    let ArrayLengths { values, .. } = rest;
    if first_typed {
        let values = if first_valid { values } else { None };
        return pointer_declared(alloc, c, &p.type_name, values);
    }
    let Declared { of, .. } = pointer_declared(alloc, c, &p.type_name, values)?;
    Ok(Declared {
        tests: Vec::new(alloc),
        of,
    })
}

/// A type name may stand for an array, and so a parameter without brackets may be a pointer (C11
/// 6.7.6.3p7).
fn adjusted(t: Option<CType>) -> Option<CType>
    ensures { option_type result ≡ option_map decayed (option_type t) }
{
    Some(decayed(t?))
}

fn plain_parameter(alloc: Global, c: &Context, p: &Parameter) -> Result<Declared, NoMemory>
    ensures { IfOk result (IsPlainParameter c.now p.now) }
{
    let base = c.base_type(alloc, &p.type_name.base)?;
    let Declared { tests, of } = plain_declared(alloc, base, p.type_name.stars)?;
    Ok(Declared {
        tests,
        of: adjusted(of),
    })
}

/// What a parameter declares, where its lengths are these.
pub fn parameter_declared(
    alloc: Global,
    c: &Context,
    p: &Parameter,
    lengths: ParameterLengths,
) -> Result<Declared, NoMemory>
    requires first { lengths.first_typed ≡ is_length_typed c.now p.now.lengths }
    requires valid { lengths.first_valid ≡ is_length c.now p.now.lengths }
    requires typed { ElementsAreTyped c.now p.now.lengths lengths.rest }
    requires values { ElementsAreValued c.now p.now.lengths lengths.rest }
    ensures { IfOk result (IsParameter c.now p.now) }
{
    if !has_brackets(&p.lengths) {
        return plain_parameter(alloc, c, p);
    }
    if !lengths.rest.all_typed {
        return Ok(undeclared(alloc));
    }
    array_parameter(alloc, c, p, lengths)
}
