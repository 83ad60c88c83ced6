// The members before a place of a struct (C11 6.7.2.1).
ghost use Rattle.std.specs.Prelude.{◌≤◌};
ghost use Rattle.qs_types.specs.Layout.{size_limit};

mod methods;

use indexmap::{IndexMap, IndexSet};
pub use methods::member_end;
use qs_base::Name;
use qs_types::CType;

/// The members before a place of a struct: the names of all, those that have a type, and where the
/// last of these ends.
#[derive(Drop)]
pub struct MembersBefore {
    pub names: IndexSet<Name>,
    pub members: IndexMap<Name, CType>,
    pub end: u32,
    ghost within: { end ≤ size_limit },
}
