// Names, calls and names of types (C11 6.5.1, 6.5.2.2, 6.5.3.4, 6.5.4).
ghost use Rattle.std.specs.Prelude.{◌≡◌, IfOk};
ghost use Rattle.qs_types.specs.Expressions.{unknown_name, unknown_call, size_judged};
ghost use Rattle.qs_typing_findings.specs.ContextOf.{context_tree};
ghost use Rattle.qs_typing_findings.specs.JudgedOf.{judged_tree};
ghost use Rattle.qs_typing_findings.specs.NameJudging.{ArgumentsFit, IsCast, IsSignature, JudgesCall};
ghost use Rattle.qs_typing_findings.specs.NameJudging.{JudgesCast, JudgesFunction, JudgesName, JudgesObject};
ghost use Rattle.qs_typing_findings.specs.NameJudging.{JudgesTyped, JudgesVariable};

use crate::context::{Context, is_void_base};
use crate::entity::{Entity, Signature};
use crate::judged::{Judged, keeps, violates, with_tests};
use crate::operands::{is_assignable, may_cast};
use crate::types::{decayed, type_or_void};
use qs_base::NoMemory;
use qs_syntax::{Expr, TypeName};
use qs_types::{CType, Rule, is_complete};
use std::alloc::Global;

// ---- names

fn unknown_name(alloc: Global) -> Result<Judged, NoMemory>
    ensures { IfOk result (λ j. judged_tree j ≡ unknown_name) }
{
    with_tests(alloc, &[violates(Rule::UnknownVariable, true)], CType::Void)
}

fn variable_judged(alloc: Global, t: &Option<CType>) -> Result<Option<Judged>, NoMemory>
    ensures { IfOk result (JudgesVariable t.now) }
{
    match t {
        None => Ok(None),
        Some(t) => Ok(Some(with_tests(alloc, &[], t.copy(alloc)?)?)),
    }
}

/// A name that stands for this.
pub fn judge_name(alloc: Global, entity: Option<&Entity>) -> Result<Option<Judged>, NoMemory>
    ensures { IfOk result (JudgesName entity.entry) }
{
    match entity {
        None => Ok(Some(unknown_name(alloc)?)),
        Some(Entity::LocalVariable(_, t)) => variable_judged(alloc, t),
        Some(Entity::FileVariable(_, t)) => variable_judged(alloc, t),
        Some(Entity::Function { .. }) => Ok(Some(unknown_name(alloc)?)),
        Some(Entity::Given(_)) => Ok(Some(unknown_name(alloc)?)),
    }
}

// ---- calls

/// Whether each argument that has a parameter may be assigned to it (C11 6.5.2.2p2).
fn arguments_fit(
    alloc: Global,
    parameters: &[CType],
    es: &[Expr],
    us: &[CType],
) -> Result<bool, NoMemory>
    ensures { IfOk result (ArgumentsFit parameters.now es.now us.now) }
{
    let mut i = 0;
    while i < parameters.len() && i < es.len() && i < us.len() {
        let v = decayed(us[i].copy(alloc)?);
        if !is_assignable(&parameters[i], &es[i], &v) {
            return Ok(false);
        }
        i += 1;
    }
    Ok(true)
}

fn signature_judged(
    alloc: Global,
    signature: &Signature,
    es: &[Expr],
    us: &[CType],
) -> Result<Judged, NoMemory>
    ensures { IfOk result (IsSignature signature.now es.now us.now) }
{
    let fit = arguments_fit(alloc, &signature.parameters, es, us)?;
    let of = signature.result.copy(alloc)?;
    let as_many = signature.parameters.len() == us.len();
    with_tests(
        alloc,
        &[
            keeps(Rule::ArgumentCount, as_many),
            keeps(Rule::ArgumentType, fit),
        ],
        of,
    )
}

fn unknown_call(alloc: Global) -> Result<Judged, NoMemory>
    ensures { IfOk result (λ j. judged_tree j ≡ unknown_call) }
{
    with_tests(alloc, &[violates(Rule::UnknownFunction, true)], CType::Void)
}

fn function_judged(
    alloc: Global,
    signature: &Option<Signature>,
    es: &[Expr],
    us: &[CType],
) -> Result<Option<Judged>, NoMemory>
    ensures { IfOk result (JudgesFunction signature.now es.now us.now) }
{
    match signature {
        None => Ok(None),
        Some(signature) => Ok(Some(signature_judged(alloc, signature, es, us)?)),
    }
}

fn call_judged(
    alloc: Global,
    entity: Option<&Entity>,
    es: &[Expr],
    us: &[CType],
) -> Result<Option<Judged>, NoMemory>
    ensures { IfOk result (JudgesTyped entity.entry es.now us.now) }
{
    match entity {
        None => Ok(Some(unknown_call(alloc)?)),
        Some(Entity::LocalVariable(_, _)) => Ok(Some(unknown_call(alloc)?)),
        Some(Entity::FileVariable(_, _)) => Ok(Some(unknown_call(alloc)?)),
        Some(Entity::Function { signature, .. }) => function_judged(alloc, signature, es, us),
        Some(Entity::Given(signature)) => Ok(Some(signature_judged(alloc, signature, es, us)?)),
    }
}

/// A call of a name that stands for this, with arguments of these types.
pub fn judge_call(
    alloc: Global,
    entity: Option<&Entity>,
    es: &[Expr],
    us: Option<Vec<CType>>,
) -> Result<Option<Judged>, NoMemory>
    ensures { IfOk result (JudgesCall entity.entry es.now us) }
{
    match us {
        None => Ok(None),
        Some(us) => call_judged(alloc, entity, es, &us),
    }
}

// ---- names of types

fn cast_judged(
    alloc: Global,
    c: &Context,
    name: &TypeName,
    e: &Expr,
    from: &CType,
) -> Result<Judged, NoMemory>
    ensures { IfOk result (IsCast c.now name.now e.now from.now) }
{
    let named = c.named_type(alloc, name)?;
    let known = named.is_some();
    let to = type_or_void(named);
    let wrong = known && !may_cast(&to, e, from);
    with_tests(
        alloc,
        &[
            keeps(Rule::UnknownTag, known),
            violates(Rule::IncompleteType, is_void_base(&name.base)),
            violates(Rule::CastType, wrong),
        ],
        to,
    )
}

/// A cast.
pub fn judge_cast(
    alloc: Global,
    c: &Context,
    name: &TypeName,
    e: &Expr,
    t: Option<CType>,
) -> Result<Option<Judged>, NoMemory>
    ensures { IfOk result (JudgesCast c.now name.now e.now t) }
{
    match t {
        None => Ok(None),
        Some(t) => Ok(Some(cast_judged(alloc, c, name, e, &decayed(t))?)),
    }
}

/// `sizeof` of a type.
pub fn judge_size(alloc: Global, c: &Context, name: &TypeName) -> Result<Judged, NoMemory>
    ensures { IfOk result (λ j. judged_tree j ≡ size_judged (context_tree c.now) name.now) }
{
    let named = c.named_type(alloc, name)?;
    let known = named.is_some();
    let t = type_or_void(named);
    let wrong = known && !is_complete(c.structs(), &t);
    with_tests(
        alloc,
        &[
            keeps(Rule::UnknownTag, known),
            violates(Rule::IncompleteType, is_void_base(&name.base)),
            violates(Rule::IncompleteType, wrong),
        ],
        CType::Unsigned,
    )
}

/// `sizeof` of an expression.
pub fn judge_object(
    alloc: Global,
    c: &Context,
    t: Option<CType>,
) -> Result<Option<Judged>, NoMemory>
    ensures { IfOk result (JudgesObject c.now t) }
{
    match t {
        None => Ok(None),
        Some(t) => {
            let holds = is_complete(c.structs(), &t);
            Ok(Some(with_tests(
                alloc,
                &[keeps(Rule::IncompleteType, holds)],
                CType::Unsigned,
            )?))
        }
    }
}
