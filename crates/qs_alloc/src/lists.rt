// Slots numbered one after the other, and the lists of a certificate.
ghost use Rattle.std.specs.Prelude.{◌≡◌, ◌<◌, ◌≤◌, ◌^◌, [], ◌∷◌, length, IfOk, OnOk};
ghost use Rattle.qs_tac.specs.Places.{slots_among};
ghost use Rattle.qs_alloc.specs.Rows.{ListsBelow, RowsBelow};
ghost use Rattle.qs_alloc.specs.Lists.{ListedOne, Turned, dense};

use crate::rows::{grow, note};
use qs_base::{NoMemory, count};
use qs_tac::Place;
use std::alloc::Global;

// lists t after each of these
fn list_one(alloc: Global, needed: &mut Vec<Vec<u32>>, t: u32, live: &[u32]) -> Result<(), NoMemory>
    requires { ListsBelow (length needed.old.items) live.now }
    ensures { OnOk result (ListedOne t live.now needed.old.items needed.new.items) }
{
    for p in live {
        note(alloc, needed, *p as usize, t)?;
    }
    Ok(())
}

/// For each instruction the temporaries in whose rows it stands.
pub fn turned(
    alloc: Global,
    rows: &[Vec<u32>],
    instructions: usize,
) -> Result<Vec<Vec<u32>>, NoMemory>
    requires { RowsBelow instructions rows.now }
    ensures { IfOk result (λ needed. Turned rows.now instructions needed.items) }
{
    let mut needed = Vec::new(alloc);
    grow(alloc, &mut needed, instructions)?;
    for t in 0..count(rows.len())? {
        list_one(alloc, &mut needed, t, &rows[t as usize])?;
    }
    Ok(needed)
}

fn renumber(place: Place, next: u32) -> Place
    ensures { result ∷ [] ≡ dense next (place ∷ []) }
{
    match place {
        Place::Slot(_) => Place::Slot(next),
        Place::Register(r) => Place::Register(r),
    }
}

fn slots_of(place: Place) -> usize
    ensures value { result ≡ slots_among (place ∷ []) }
    ensures bound { result ≤ 1 }
{
    match place {
        Place::Slot(_) => 1,
        Place::Register(_) => 0,
    }
}

/// The slots numbered from 0 on.
pub fn numbered(alloc: Global, at: &[Place]) -> Result<Vec<Place>, NoMemory>
    requires { length at.now < 2 ^ 32 }
    ensures { IfOk result (λ now. now.items ≡ dense 0 at.now) }
{
    let mut now = Vec::new(alloc);
    let mut next: usize = 0;
    for place in at {
        now.push(renumber(*place, next as u32))?;
        next += slots_of(*place);
    }
    Ok(now)
}
