// Members of structs (C11 6.5.2.3).
ghost use Rattle.qs_meaning.specs.Expressions.{arrow_form, dot_form, member_form, member_number};
ghost use Rattle.qs_meaning.specs.Expressions.{member_offset, object_at};
ghost use Rattle.qs_meaning.specs.Typed.{member};
ghost use Rattle.qs_types.specs.EnvOf.{env_tree};
ghost use Rattle.qs_types.specs.TypeOf.{type_tree};
ghost use Rattle.qs_types.specs.Types.{struct};
ghost use Rattle.qs_typed_forms.specs.FormOf.{IsForm, form_tree, typed_tree};
ghost use Rattle.qs_typed_forms.specs.Results.{Gives, Makes, itself};
ghost use Rattle.qs_typed_trees.specs.TreeOf.{expression_tree};
ghost use Rattle.qs_typed_nodes.specs.TypesOf.{members_tree};

use indexmap::IndexMap;
use qs_base::{Name, NoMemory};
use qs_syntax_vocabulary::Access;
use qs_typed_forms::{Form, Typed, referenced, value_in_use};
use qs_typed_nodes::{offset_at, struct_members};
use qs_typed_operators::object_at;
use qs_typed_trees::Expression;
use qs_types::{CType, Env};
use std::alloc::Global;

/// The place of a member among others.
#[tactic(auto, using(qs_typed_nodes::proofs::MemberPlaces::number_found))]
fn member_number(members: &IndexMap<Name, CType>, name: &Name) -> Result<usize, NoMemory>
    ensures { Gives itself (member_number 0 name.now (members_tree members.now)) result }
{
    match members.get_index_of(name) {
        None => Err(NoMemory),
        Some(i) => Ok(i),
    }
}

#[tactic(auto, using(qs_typed_nodes::proofs::MemberPlaces::offset_found))]
fn struct_offset(env: &Env, k: u32, name: &Name) -> Result<u32, NoMemory>
    ensures { Gives itself (member_offset (env_tree env.now) (struct k) name.now) result }
{
    let members = struct_members(env, k)?;
    let i = member_number(members, name)?;
    offset_at(env, k, i)
}

/// The offset of a member of a struct of this type.
fn member_offset(env: &Env, t: &CType, name: &Name) -> Result<u32, NoMemory>
    ensures { Gives itself (member_offset (env_tree env.now) (type_tree t.now) name.now) result }
{
    match t {
        CType::Int => Err(NoMemory),
        CType::Unsigned => Err(NoMemory),
        CType::Char => Err(NoMemory),
        CType::Void => Err(NoMemory),
        CType::Pointer(_) => Err(NoMemory),
        CType::Array(_, _) => Err(NoMemory),
        CType::Struct(k) => struct_offset(env, *k, name),
    }
}

/// The object at this offset of the one at this address.
fn member_at(alloc: Global, offset: u32, base: Expression) -> Result<Form, NoMemory>
    ensures { Makes form_tree (object_at (member offset (expression_tree base))) result }
{
    object_at(alloc, Expression::Member(offset, Box::new(alloc, base)?))
}

/// `e.x` of an lvalue (C11 6.5.2.3p3).
fn dot_form(alloc: Global, env: &Env, a: Typed<'_>, name: &Name) -> Result<Form, NoMemory>
    ensures { IsForm (dot_form (env_tree env.now) (typed_tree a.entry) name.now) result }
{
    let base = a.form.into_address()?;
    let offset = member_offset(env, a.of, name)?;
    member_at(alloc, offset, base)
}

/// `p->x` (C11 6.5.2.3p4).
#[tactic(auto, using(qs_typed_operators::proofs::OperationTypes::referenced_in_use))]
fn arrow_form(alloc: Global, env: &Env, a: Typed<'_>, name: &Name) -> Result<Form, NoMemory>
    ensures { IsForm (arrow_form (env_tree env.now) (typed_tree a.entry) name.now) result }
{
    let offset = member_offset(env, referenced(a.of), name)?;
    let base = value_in_use(alloc, a)?;
    member_at(alloc, offset, base)
}

/// A member (C11 6.5.2.3).
pub fn member_form(
    alloc: Global,
    env: &Env,
    access: Access,
    a: Typed<'_>,
    name: &Name,
) -> Result<Form, NoMemory>
    ensures { IsForm (member_form (env_tree env.now) access (typed_tree a.entry) name.now) result }
{
    match access {
        Access::Dot => dot_form(alloc, env, a, name),
        Access::Arrow => arrow_form(alloc, env, a, name),
    }
}
