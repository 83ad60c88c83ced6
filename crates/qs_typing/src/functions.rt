// Functions (C11 6.7.6.3, 6.9.1).
ghost use Rattle.std.specs.Prelude.{◌≡◌, Some, IfOk, OnOk, ◌&&◌, map, not, option_map};
ghost use Rattle.std.specs.List.{list_all};
ghost use Rattle.qs_syntax.specs.TreeOf.{function_tree};
ghost use Rattle.qs_types.specs.Expressions.{type_or_void};
ghost use Rattle.qs_types.specs.TypeOf.{type_tree};
ghost use Rattle.qs_types.specs.UnitRules as rules;
ghost use Rattle.qs_typing_findings.specs.ContextOf.{context_tree};
ghost use Rattle.qs_typing_findings.specs.PartsOf.{option_type};
ghost use Rattle.qs_typing.specs.FunctionWalks.{AreHeaderTests, AreNoted, AreParameterTests};
ghost use Rattle.qs_typing.specs.FunctionWalks.{AreParameterTypes, AreWithOne, DeclaresParameter};
ghost use Rattle.qs_typing.specs.FunctionWalks.{DeclaresParameters, HasParameterTypes};
ghost use Rattle.qs_typing.specs.FunctionWalks.{IsDeclaredFunction, IsMainTest, IsParameterType};
ghost use Rattle.qs_typing.specs.FunctionWalks.{IsResultType, IsSignature, IsSignatureTest};
ghost use Rattle.qs_typing.specs.FunctionWalks.{KnowsFunction, KnowsParameter, KnowsParameters};
ghost use Rattle.qs_typing.specs.FunctionWalks.{WalksDeclarator, WalksFunction, WalksItems};
ghost use Rattle.qs_typing.specs.FunctionWalks.{WalksParameter, WalksParameters, agrees_with};
ghost use Rattle.qs_typing.specs.FunctionWalks.{are_lengths_typed, header_by};
ghost use Rattle.qs_typing.specs.Declares.{IsParameter};
ghost use Rattle.qs_typing_findings.specs.EntityOf.{signature_tree};
ghost use Rattle.qs_typing_findings.specs.Noted.{parameters_noted};
ghost use Rattle.qs_typing_findings.specs.PartsOf.{types_tree};

use crate::declared_types::{Declared, parameter_declared};
use crate::lengths::walk_parameter_lengths;
use crate::statements::walk_statements;
use qs_base::{Name, NoMemory};
use qs_syntax::{Function, Parameter, Stmt};
use qs_types::{CType, Env, Rule, is_array, is_scalar, is_struct};
use qs_typing_findings::{
    Context, Entity, Local, Signature, Test, Walk, copied, is_void_base, keeps, local_of, violates,
};
use std::alloc::Global;

// ---- parameters

fn is_name_declared(c: &Context, name: &Option<Name>) -> bool
    ensures { result ≡ rules.is_name_declared (context_tree c.now) name.now }
{
    match name {
        None => false,
        Some(x) => c.is_declared_here(x),
    }
}

/// The test that the parameter is a scalar, and has a name where there is a body.
fn signature_test(p: &Parameter, has_body: bool, t: &Option<CType>) -> Test
    ensures { IsSignatureTest p.now has_body t.now result }
{
    match t {
        None => violates(Rule::SignatureType, has_body && p.name.is_none()),
        Some(t) => {
            let named = !has_body || p.name.is_some();
            keeps(Rule::SignatureType, is_scalar(t) && named)
        }
    }
}

fn parameter_tests(
    alloc: Global,
    all_typed: bool,
    again: bool,
    own: &[Test],
    signature: Test,
) -> Result<Vec<Test>, NoMemory>
    ensures { IfOk result (λ ts. AreParameterTests all_typed again own.now signature ts.items) }
{
    let mut tests = Vec::new(alloc);
    if !all_typed {
        return Ok(tests);
    }
    tests.push(violates(Rule::DeclaredTwice, again))?;
    tests.extend_from_slice(own)?;
    tests.push(signature)?;
    Ok(tests)
}

/// Declares a parameter of this type, where it has a name.
fn declare_parameter(
    alloc: Global,
    c: &mut Context,
    p: &Parameter,
    t: &Option<CType>,
) -> Result<(), NoMemory>
    ensures { OnOk result (DeclaresParameter p.now t.now c.old c.new) }
{
    match &p.name {
        None => Ok(()),
        Some(x) => {
            let entity = Entity::LocalVariable(p.node.id, copied(alloc, t)?);
            c.declare(alloc, x.copy(alloc)?, entity)
        }
    }
}

/// Walks over the declarator of a parameter, and gives what it declares, and whether each of its
/// lengths has a type.
fn walk_declarator(
    alloc: Global,
    c: &Context,
    p: &Parameter,
    walk: &mut Walk,
) -> Result<(Declared, bool), NoMemory>
    ensures declared { IfOk result (λ r. IsParameter c.now p.now r.0) }
    ensures typed { IfOk result (λ r. r.1 ≡ are_lengths_typed c.now p.now) }
    ensures walked { OnOk result (WalksDeclarator c.now p.now walk.old walk.new) }
{
    let at = walk.open_object()?;
    let lengths = walk_parameter_lengths(alloc, c, &p.lengths, walk)?;
    let all_typed = lengths.first_typed && lengths.rest.all_typed;
    let declared = parameter_declared(alloc, c, p, lengths)?;
    let kept = copied(alloc, &declared.of)?;
    walk.declare(at, kept);
    Ok((declared, all_typed))
}

/// Walks over a parameter, and gives its type.
fn walk_parameter(
    alloc: Global,
    c: &mut Context,
    has_body: bool,
    p: &Parameter,
    walk: &mut Walk,
) -> Result<Option<CType>, NoMemory>
    ensures typed { IfOk result (IsParameterType c.old p.now) }
    ensures context { OnOk result (KnowsParameter p.now c.old c.new) }
    ensures walked { OnOk result (WalksParameter c.old has_body p.now walk.old walk.new) }
{
    let (Declared { tests, of }, all_typed) = walk_declarator(alloc, c, p, walk)?;
    let again = is_name_declared(c, &p.name);
    let signature = signature_test(p, has_body, &of);
    let tests = parameter_tests(alloc, all_typed, again, &tests, signature)?;
    walk.judge(p.node, &tests);
    declare_parameter(alloc, c, p, &of)?;
    Ok(of)
}

/// Walks over parameters, and gives their types.
fn walk_parameters(
    alloc: Global,
    c: &mut Context,
    has_body: bool,
    ps: &[Parameter],
    walk: &mut Walk,
) -> Result<Vec<Option<CType>>, NoMemory>
    ensures typed { IfOk result (λ ts. AreParameterTypes c.old ps.now ts.items) }
    ensures context { OnOk result (KnowsParameters ps.now c.old c.new) }
    ensures walked { OnOk result (WalksParameters c.old has_body ps.now walk.old walk.new) }
{
    let mut types = Vec::new(alloc);
    for p in ps {
        types.push(walk_parameter(alloc, c, has_body, p, walk)?)?;
    }
    Ok(types)
}

// ---- headers

fn is_void_pointer(f: &Function) -> bool
    ensures { result ≡ rules.is_void_pointer (function_tree f.now) }
{
    is_void_base(&f.result_type.base) && f.result_type.stars != 0
}

fn result_type(alloc: Global, c: &Context, f: &Function) -> Result<Option<CType>, NoMemory>
    ensures { IfOk result (IsResultType c.now f.now) }
{
    if is_void_pointer(f) {
        return Ok(None);
    }
    c.named_type(alloc, &f.result_type)
}

fn may_be(t: &CType, u: &Option<CType>) -> bool
    ensures { result ≡ rules.may_be (type_tree t.now) (option_type u.now) }
{
    match u {
        None => true,
        Some(u) => t.same(u),
    }
}

fn may_all_be(ts: &[CType], us: &[Option<CType>]) -> bool
    ensures { result ≡ rules.may_all_be (map type_tree ts.now) (map option_type us.now) }
{
    let mut i = 0;
    while i < ts.len() && i < us.len() {
        if !may_be(&ts[i], &us[i]) {
            return false;
        }
        i += 1;
    }
    if i < ts.len() {
        return false;
    }
    i >= us.len()
}

fn agrees(s: &Signature, types: &[Option<CType>], to: &Option<CType>) -> bool
    ensures { result ≡ rules.agree (Some (signature_tree s.now)) (header_by types.now to.now) }
{
    may_be(&s.result, to) && may_all_be(&s.parameters, types)
}

fn option_agrees(s: &Option<Signature>, types: &[Option<CType>], to: &Option<CType>) -> bool
    ensures { result ≡ rules.agree (option_map signature_tree s.now) (header_by types.now to.now) }
{
    match s {
        None => true,
        Some(s) => agrees(s, types, to),
    }
}

/// Whether a header agrees with what was declared under its name before (C11 6.7p4), and at most
/// one has a body (6.9p3, p5).
fn agrees_with(
    entity: Option<&Entity>,
    types: &[Option<CType>],
    to: &Option<CType>,
    has_body: bool,
) -> bool
    ensures { result ≡ agrees_with entity.entry (header_by types.now to.now) has_body }
{
    match entity {
        None => true,
        Some(Entity::LocalVariable(_, _)) => false,
        Some(Entity::FileVariable(_, _)) => false,
        Some(
            Entity::Function {
                signature,
                has_body: earlier,
                ..
            },
        ) => option_agrees(signature, types, to) && !(*earlier && has_body),
        Some(Entity::Given(s)) => agrees(s, types, to) && !has_body,
    }
}

fn is_main_parameter(t: &Option<CType>) -> bool
    ensures { result ≡ rules.is_main_parameter (option_type t.now) }
{
    may_be(&CType::Int, t) || may_be(&CType::Unsigned, t)
}

fn are_main_parameters(types: &[Option<CType>]) -> bool
    ensures { result ≡ list_all rules.is_main_parameter (map option_type types.now) }
{
    for t in types {
        if !is_main_parameter(t) {
            return false;
        }
    }
    true
}

fn is_main_type(types: &[Option<CType>], to: &Option<CType>) -> bool
    ensures { result ≡ rules.is_main_type (header_by types.now to.now) }
{
    may_be(&CType::Int, to) && are_main_parameters(types)
}

fn is_aggregate_result(t: &Option<CType>) -> bool
    ensures { result ≡ rules.is_aggregate (type_or_void (option_type t.now)) }
{
    match t {
        None => false,
        Some(t) => is_struct(t) || is_array(t),
    }
}

/// Whether a header may declare its name, by whether that is a type name, and whether the header
/// agrees with what was declared before.
fn may_declare(is_type_name: bool, agrees: bool) -> bool
    ensures { result ≡ not is_type_name && agrees }
{
    !is_type_name && agrees
}

/// The test of a header of `main` (C11 5.1.2.2.1).
fn main_test(f: &Function, types: &[Option<CType>], to: &Option<CType>) -> Option<Test>
    ensures { IsMainTest f.now (header_by types.now to.now) result }
{
    if f.name.bytes() == b"main".as_slice() {
        Some(keeps(Rule::MainType, is_main_type(types, to)))
    } else {
        None
    }
}

/// These tests, and one more.
fn with_test(alloc: Global, tests: &[Test], t: Option<Test>) -> Result<Vec<Test>, NoMemory>
    ensures { IfOk result (λ ts. AreWithOne tests.now t ts.items) }
{
    let mut all = Vec::from_slice(alloc, tests)?;
    match t {
        None => Ok(all),
        Some(t) => {
            all.push(t)?;
            Ok(all)
        }
    }
}

fn header_tests(
    alloc: Global,
    c: &Context,
    f: &Function,
    types: &[Option<CType>],
    to: &Option<CType>,
) -> Result<Vec<Test>, NoMemory>
    requires types { HasParameterTypes c.now f.now types.now }
    requires to { IsResultType c.now f.now to.now }
    ensures { IfOk result (λ ts. AreHeaderTests c.now f.now ts.items) }
{
    let agrees = agrees_with(c.find_here(&f.name), types, to, f.body.is_some());
    let may_declare = may_declare(c.is_type_name(&f.name), agrees);
    let known = c.knows_base(&f.result_type.base);
    let tests = [
        keeps(Rule::DeclaredTwice, may_declare),
        keeps(Rule::UnknownTag, known),
        violates(Rule::IncompleteType, is_void_pointer(f)),
        violates(Rule::SignatureType, is_aggregate_result(to)),
    ];
    with_test(alloc, &tests, main_test(f, types, to))
}

// ---- what a header declares

/// The types of the parameters, if each has one.
fn all_of(alloc: Global, types: &[Option<CType>]) -> Result<Option<Vec<CType>>, NoMemory>
    ensures { IfOk result (λ ts. types_tree ts ≡ rules.all_of (map option_type types.now)) }
{
    let mut all = Vec::new(alloc);
    for t in types {
        match t {
            None => return Ok(None),
            Some(t) => all.push(t.copy(alloc)?)?,
        }
    }
    Ok(Some(all))
}

fn signature_by(
    alloc: Global,
    types: &[Option<CType>],
    to: &Option<CType>,
) -> Result<Option<Signature>, NoMemory>
    ensures { IfOk result (IsSignature (header_by types.now to.now)) }
{
    match all_of(alloc, types)? {
        None => Ok(None),
        Some(parameters) => match to {
            None => Ok(None),
            Some(t) => Ok(Some(Signature {
                parameters,
                result: t.copy(alloc)?,
            })),
        },
    }
}

fn copied_types(alloc: Global, ts: &[CType]) -> Result<Vec<CType>, NoMemory>
    ensures { IfOk result (λ us. map type_tree us.items ≡ map type_tree ts.now) }
{
    let mut us = Vec::new(alloc);
    for t in ts {
        us.push(t.copy(alloc)?)?;
    }
    Ok(us)
}

fn copied_signature(alloc: Global, s: &Signature) -> Result<Signature, NoMemory>
    ensures { IfOk result (λ r. signature_tree r ≡ signature_tree s.now) }
{
    Ok(Signature {
        parameters: copied_types(alloc, &s.parameters)?,
        result: s.result.copy(alloc)?,
    })
}

/// What a header declares: a body that was given before stays, and so does a function that is
/// given.
fn declared_function(
    alloc: Global,
    entity: Option<&Entity>,
    node: u32,
    signature: Option<Signature>,
    has_body: bool,
) -> Result<Entity, NoMemory>
    ensures { IfOk result (IsDeclaredFunction entity.entry node signature has_body) }
{
    match entity {
        None => Ok(Entity::Function {
            node,
            signature,
            has_body,
        }),
        Some(Entity::LocalVariable(_, _)) => Ok(Entity::Function {
            node,
            signature,
            has_body,
        }),
        Some(Entity::FileVariable(_, _)) => Ok(Entity::Function {
            node,
            signature,
            has_body,
        }),
        Some(
            Entity::Function {
                has_body: earlier,
                ..
            },
        ) => Ok(Entity::Function {
            node,
            signature,
            has_body: *earlier || has_body,
        }),
        Some(Entity::Given(s)) => Ok(Entity::Given(copied_signature(alloc, s)?)),
    }
}

fn declare_function(
    alloc: Global,
    c: &mut Context,
    f: &Function,
    types: &[Option<CType>],
    to: &Option<CType>,
) -> Result<(), NoMemory>
    requires types { HasParameterTypes c.old f.now types.now }
    requires to { IsResultType c.old f.now to.now }
    ensures { OnOk result (KnowsFunction f.now c.old c.new) }
{
    let signature = signature_by(alloc, types, to)?;
    let has_body = f.body.is_some();
    let entity = declared_function(alloc, c.find_here(&f.name), f.node.id, signature, has_body)?;
    c.declare(alloc, f.name.copy(alloc)?, entity)
}

// ---- bodies

#[tactic(auto, using(crate::proofs::Headers::no_types))]
fn declare_parameters(
    alloc: Global,
    c: &mut Context,
    ps: &[Parameter],
    types: &[Option<CType>],
) -> Result<(), NoMemory>
    ensures { OnOk result (DeclaresParameters ps.now types.now c.old c.new) }
{
    let mut i = 0;
    while i < ps.len() && i < types.len() {
        declare_parameter(alloc, c, &ps[i], &types[i])?;
        i += 1;
    }
    Ok(())
}

#[tactic(auto, using(crate::proofs::Headers::none_noted))]
fn parameters_noted(
    alloc: Global,
    structs: &Env,
    ps: &[Parameter],
    types: &[Option<CType>],
) -> Result<Vec<Local>, NoMemory>
    ensures { IfOk result (λ ls. AreNoted structs.now ps.now types.now ls.items) }
{
    let mut locals = Vec::new(alloc);
    let mut i = 0;
    while i < ps.len() && i < types.len() {
        locals.push(local_of(structs, ps[i].node.id, &types[i]))?;
        i += 1;
    }
    Ok(locals)
}

/// Walks over the body of a function with parameters of these types and this result.
fn walk_body_items(
    alloc: Global,
    c: &mut Context,
    ps: &[Parameter],
    ts: &[Option<CType>],
    to: Option<CType>,
    items: &[Stmt],
    walk: &mut Walk,
) -> Result<(), NoMemory>
    ensures context { OnOk result (context_tree c.new ≡ context_tree c.old) }
    ensures walked { OnOk result (WalksItems c.old ps.now ts.now to items.now walk.old walk.new) }
{
    let locals = parameters_noted(alloc, c.structs(), ps, ts)?;
    walk.begin_body(locals);
    let start = walk.found.addressed.len();
    let around = c.enter_scope(alloc);
    let before = c.set_result(to);
    declare_parameters(alloc, c, ps, ts)?;
    walk_statements(alloc, c, items, walk)?;
    c.set_result(before);
    c.leave_scope(around);
    walk.end_body(alloc, start)
}

/// Walks over a function, which is known behind its header.
pub fn walk_function(
    alloc: Global,
    c: &mut Context,
    f: &Function,
    walk: &mut Walk,
) -> Result<(), NoMemory>
    ensures context { OnOk result (KnowsFunction f.now c.old c.new) }
    ensures walked { OnOk result (WalksFunction c.old f.now walk.old walk.new) }
{
    walk.open()?;
    let around = c.enter_scope(alloc);
    let types = walk_parameters(alloc, c, f.body.is_some(), &f.parameters, walk)?;
    c.leave_scope(around);
    let to = result_type(alloc, c, f)?;
    let tests = header_tests(alloc, c, f, &types, &to)?;
    walk.judge(f.node, &tests);
    declare_function(alloc, c, f, &types, &to)?;
    match &f.body {
        None => Ok(()),
        Some(items) => walk_body_items(alloc, c, &f.parameters, &types, to, items, walk),
    }
}
