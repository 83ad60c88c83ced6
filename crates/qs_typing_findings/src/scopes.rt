// The names in scope (C11 6.2.1).
ghost use Rattle.std.specs.Prelude.{◌≡◌, ◌≤◌, ℕ, List, true, length};
ghost use Rattle.qs_typing_findings.specs.Bindings.{newest_first, place_in, latest_place, hide_right};

mod methods;

use crate::entity::Binding;
use indexmap::IndexMap;
use qs_base::Name;

/// The declarations in scope, in their order, and for each name the place of its latest one. A
/// scope costs what is declared in it.
#[derive(Drop)]
pub struct Scopes {
    bindings: Vec<Binding>,
    places: IndexMap<Name, Option<usize>>,
    start: usize,
    ghost within: { start ≤ length bindings.items },
    ghost indexed: { (x : List ℕ) →
        latest_place places.entries x ≡ place_in x (newest_first bindings.items) },
    ghost hiding: { hide_right (newest_first bindings.items) ≡ true },
}
