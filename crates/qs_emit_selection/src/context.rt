// What the code of a function depends on.
ghost use Rattle.std.specs.Prelude.{◌≡◌, true};
ghost use Rattle.qs_tac.specs.TreeOf.{function_tree, function_trees};
ghost use Rattle.qs_tac.specs.Places.{places_tree};
ghost use Rattle.qs_frames.specs.Layout.{layout, slot_at, block_offset, stored_registers};
ghost use Rattle.qs_frames.specs.Starts.{BeginAt};
ghost use Rattle.qs_emit_selection.specs.Data.{data_address};
ghost use Rattle.qs_emit_selection.specs.Emission.{first_label, has_one_epilogue};
ghost use Rattle.qs_emit_selection.specs.Limits.{FunctionFits, places_fit};

use qs_frames::{Frame, Starts};
use qs_tac::{Places, TacFunction, TacUnit};

/// A function with the places of its temporaries, its frame, and where its blocks and the unit's
/// data lie.
#[derive(Drop)]
pub struct FunctionContext<'a> {
    /// the unit
    pub unit: &'a TacUnit,
    /// one of its functions
    pub function: &'a TacFunction,
    /// where its temporaries stand
    pub places: &'a Places,
    /// its frame
    pub frame: Frame,
    /// the offsets of its slots from x2
    pub slots: &'a Starts,
    /// the registers that its entry stores
    pub stored: &'a [u32],
    /// whether it has one epilogue, at its end
    pub one_epilogue: bool,
    /// the offsets of its blocks from x2
    pub blocks: &'a Starts,
    /// the addresses of the unit's data
    pub data_starts: &'a Starts,
    /// its number
    pub number: u32,
    /// the first label of each function of the unit
    pub labels: &'a Starts,
    ghost fits: { FunctionFits (function_tree function.now) (places_tree places.now) },
    ghost placed: { places_fit (places_tree places.now) ≡ true },
    ghost framed: { frame ≡ layout (function_tree function.now) (places_tree places.now) },
    ghost slotted: { BeginAt slots.now (slot_at (function_tree function.now) (places_tree places.now)) },
    ghost keeps: { stored.now ≡ stored_registers (function_tree function.now) (places_tree places.now) },
    ghost returns: { one_epilogue ≡ has_one_epilogue (function_tree function.now) },
    ghost offsets: { BeginAt blocks.now (block_offset (function_tree function.now) frame) },
    ghost addresses: { BeginAt data_starts.now (data_address unit.now.data_blocks.items) },
    ghost labelled: { BeginAt labels.now (first_label (function_trees unit.now.functions.items)) },
}
