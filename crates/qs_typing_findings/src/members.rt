// Members of structs (C11 6.5.2.3).
ghost use Rattle.std.specs.Prelude.{◌≡◌, IfOk};
ghost use Rattle.qs_typing_findings.specs.Judging.{IsFound, IsMember, JudgesMember, member_of, member_type};
ghost use Rattle.qs_typing_findings.specs.PartsOf.{option_type, type_at};

use crate::judged::{Judged, keeps, with_tests};
use crate::operands::is_lvalue;
use crate::types::{decayed, referenced, type_or_void};
use qs_base::{Name, NoMemory};
use qs_syntax::Expr;
use qs_syntax_vocabulary::Access;
use qs_types::{CType, Env, Rule, is_pointer};
use std::alloc::Global;

/// The type of a member of the struct with this number, if it has such a member.
fn member_of<'a>(types: &'a Env, k: u32, name: &Name) -> Option<&'a CType>
    ensures { type_at result ≡ member_of types.now k name.now }
{
    let members = types.structs().get(k as usize)?.members.as_ref()?;
    members.get(name)
}

/// The type of a member of a struct of this type, if it has such a member.
pub fn member_type<'a>(types: &'a Env, t: &CType, name: &Name) -> Option<&'a CType>
    ensures { type_at result ≡ member_type types.now t.now name.now }
{
    match t {
        CType::Int => None,
        CType::Unsigned => None,
        CType::Char => None,
        CType::Void => None,
        CType::Pointer(_) => None,
        CType::Array(_, _) => None,
        CType::Struct(k) => member_of(types, *k, name),
    }
}

fn copied(alloc: Global, t: Option<&CType>) -> Result<Option<CType>, NoMemory>
    ensures { IfOk result (λ r. option_type r ≡ type_at t.entry) }
{
    match t {
        None => Ok(None),
        Some(t) => Ok(Some(t.copy(alloc)?)),
    }
}

fn found_member(
    alloc: Global,
    may: bool,
    types: &Env,
    t: &CType,
    name: &Name,
) -> Result<Judged, NoMemory>
    ensures { IfOk result (IsFound may types.now t.now name.now) }
{
    let m = copied(alloc, member_type(types, t, name))?;
    let holds = may && m.is_some();
    with_tests(alloc, &[keeps(Rule::UnknownMember, holds)], type_or_void(m))
}

fn member_judged(
    alloc: Global,
    types: &Env,
    access: Access,
    a: &Expr,
    t: CType,
    name: &Name,
) -> Result<Judged, NoMemory>
    ensures { IfOk result (IsMember types.now access a.now t name.now) }
{
    match access {
        Access::Dot => found_member(alloc, is_lvalue(a), types, &t, name),
        Access::Arrow => {
            let v = decayed(t);
            let may = is_pointer(&v);
            found_member(alloc, may, types, &referenced(v), name)
        }
    }
}

/// `a.m` or `a->m`
pub fn judge_member(
    alloc: Global,
    types: &Env,
    access: Access,
    a: &Expr,
    t: Option<CType>,
    name: &Name,
) -> Result<Option<Judged>, NoMemory>
    ensures { IfOk result (JudgesMember types.now access a.now t name.now) }
{
    match t {
        None => Ok(None),
        Some(t) => Ok(Some(member_judged(alloc, types, access, a, t, name)?)),
    }
}
