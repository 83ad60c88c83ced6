// Structs (C11 6.7.2.1).
use crate::types::CType;
use indexmap::IndexMap;
use qs_base::Name;

/// Where the members of a struct lie (C11 6.7.2.1), and the struct's own size and alignment.
#[derive(Drop)]
pub struct StructLayout {
    /// The offsets of the members, in their order.
    pub offsets: Vec<u32>,
    /// The size of the struct.
    pub size: u32,
    /// The alignment of the struct.
    pub alignment: u32,
}

/// A struct that a text has declared.
#[derive(Drop)]
pub struct StructType {
    /// The members in order; None where the struct is only declared.
    pub members: Option<IndexMap<Name, CType>>,
    /// Where the members lie; None where the struct is only declared.
    pub layout: Option<StructLayout>,
}
