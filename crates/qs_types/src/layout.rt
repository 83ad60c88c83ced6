// Sizes, alignments and the offsets of members (C11 6.2.8, 6.5.3.4, 6.7.2.1).
ghost use Rattle.std.specs.Prelude.{◌≡◌, ◌≤◌, ◌<◌, ◌+◌, ◌^◌, true, Some, IfOk, IfSome, is_some};
ghost use Rattle.qs_types.specs.Layout.{array_extent, extent_within, sized_by, struct_extent};
ghost use Rattle.qs_types.specs.Layout.{alignment_of, is_complete, is_sized, layout_of, offset_of};
ghost use Rattle.qs_types.specs.Layout.{rounded_up, size_limit, size_of};
ghost use Rattle.qs_types.specs.LayoutLaws.{IsSmall};
ghost use Rattle.qs_types.specs.TypeOf.{type_tree};
ghost use Rattle.qs_types.specs.StructsOf.{layout_tree};
ghost use Rattle.qs_types.specs.Defining.{IsLaidOut, IsWhole};
ghost use Rattle.qs_types.specs.EnvOf.{env_tree};

use crate::env::Env;
use crate::extent::Extent;
use crate::structs::StructLayout;
use crate::types::CType;
use indexmap::IndexMap;
use qs_base::{Name, NoMemory};
use std::alloc::Global;

/// No type is larger than this.
pub const SIZE_LIMIT: u32 = 16_777_216;

/// Whether the type is complete (C11 6.2.5).
pub fn is_complete(types: &Env, t: &CType) -> bool
    ensures { result ≡ is_complete (env_tree types.now) (type_tree t.now) }
{
    match t {
        CType::Int => true,
        CType::Unsigned => true,
        CType::Char => true,
        CType::Void => false,
        CType::Pointer(_) => true,
        CType::Array(element, _) => is_complete(types, element),
        CType::Struct(k) => types.layout_of(*k).is_some(),
    }
}

/// The size and the alignment of a type, if it is complete and neither it nor an element of it is
/// larger than the limit.
#[tactic(auto, using(crate::proofs::Extents::small_if))]
pub fn extent_of(types: &Env, t: &CType) -> Option<Extent>
    ensures extent { result ≡ sized_by (layout_of (env_tree types.now)) (type_tree t.now) }
    ensures small { IfSome result IsSmall }
{
    match t {
        CType::Int => scalar(4),
        CType::Unsigned => scalar(4),
        CType::Char => scalar(1),
        CType::Void => None,
        CType::Pointer(_) => scalar(4),
        CType::Array(element, length) => array(extent_of(types, element)?, *length),
        CType::Struct(k) => structure(types.layout_of(*k)?),
    }
}

fn scalar(size: u32) -> Option<Extent>
    ensures { result ≡ Some (record { size = size; alignment = size }) }
{
    Some(Extent {
        size,
        alignment: size,
    })
}

fn array(element: Extent, length: u32) -> Option<Extent>
    requires { element.size ≤ size_limit }
    ensures { result ≡ extent_within (array_extent element length) }
{
    let size = u64::from(element.size) * u64::from(length);
    if size > u64::from(SIZE_LIMIT) {
        return None;
    }
    Some(Extent {
        size: size as u32,
        alignment: element.alignment,
    })
}

fn structure(layout: &StructLayout) -> Option<Extent>
    ensures { result ≡ extent_within (struct_extent (layout_tree layout.now)) }
{
    if layout.size > SIZE_LIMIT {
        return None;
    }
    Some(Extent {
        size: layout.size,
        alignment: layout.alignment,
    })
}

/// The size of a type (C11 6.5.3.4).
pub fn size_of(types: &Env, t: &CType) -> u32
    requires { is_sized (env_tree types.now) (type_tree t.now) ≡ true }
    ensures { size_of (env_tree types.now) (type_tree t.now) ≡ Some result }
{
    extent_of(types, t).unwrap().size
}

/// The alignment of a type (C11 6.2.8).
pub fn align_of(types: &Env, t: &CType) -> u32
    requires { is_sized (env_tree types.now) (type_tree t.now) ≡ true }
    ensures { alignment_of (env_tree types.now) (type_tree t.now) ≡ Some result }
{
    extent_of(types, t).unwrap().alignment
}

/// The offset of a member of a struct (C11 6.7.2.1).
pub fn offset_of(types: &Env, s: u32, member: u32) -> u32
    requires { is_some (offset_of (env_tree types.now) s member) ≡ true }
    ensures { offset_of (env_tree types.now) s member ≡ Some result }
{
    types.layout_of(s).unwrap().offsets[member as usize]
}

/// The least multiple of the alignment that isn't below `n`.
fn rounded_up(n: u32, alignment: u32) -> u32
    requires positive { 1 ≤ alignment }
    requires small { n + alignment < 2 ^ 32 }
    ensures up { result ≡ rounded_up n alignment }
    ensures near { result < n + alignment }
{
    (n + (alignment - 1)) / alignment * alignment
}

/// The layout of a struct with these members, if each member and the whole have a size within the
/// limit.
pub fn members_layout(
    alloc: Global,
    types: &Env,
    members: &IndexMap<Name, CType>,
) -> Result<Option<StructLayout>, NoMemory>
    ensures { IfOk result (IsLaidOut types.now members.now.entries) }
{
    let mut offsets = Vec::new(alloc);
    let mut end = 0;
    let mut alignment = 1;
    for i in 0..members.len() {
        let Some(extent) = extent_of(types, &members[i]) else {
            return Ok(None);
        };
        let offset = rounded_up(end, extent.alignment);
        offsets.push(offset)?;
        end = offset + extent.size;
        if end > SIZE_LIMIT {
            return Ok(None);
        }
        alignment = alignment.max(extent.alignment);
    }
    Ok(whole_layout(offsets, rounded_up(end, alignment), alignment))
}

fn whole_layout(offsets: Vec<u32>, size: u32, alignment: u32) -> Option<StructLayout>
    ensures { IsWhole offsets.items size alignment result }
{
    if size > SIZE_LIMIT {
        return None;
    }
    Some(StructLayout {
        offsets,
        size,
        alignment,
    })
}
