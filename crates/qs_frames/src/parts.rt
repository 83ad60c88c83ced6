// The frame of a function, and where its parts lie.
ghost use Rattle.std.specs.Prelude.{◌≡◌, ◌↔◌, ◌+◌, ◌*◌, ◌^◌, ◌≤◌, ◌<◌, ◌++◌};
ghost use Rattle.std.specs.Prelude.{IfOk, OnOk, IsSome, IfSome, length, map, unwrap_or};
ghost use Rattle.std.specs.List.{list_any};
ghost use Rattle.qs_tac.specs.TreeOf.{function_tree, instruction_tree};
ghost use Rattle.qs_tac.specs.Places.{places_tree, slots_among};
ghost use Rattle.qs_tac.specs.Sizes.{arguments_of, most_passed};
ghost use Rattle.qs_frames.specs.Layout as spec;
ghost use Rattle.qs_frames.specs.Starts.{BeginAt};

use crate::blocks::{LARGEST_FRAME, Starts, total, total_within};
use crate::frame::Frame;
use qs_base::{MOST_REGISTER_ARGUMENTS, NoMemory};
use qs_calls::Callee;
use qs_tac::{Instruction, Place, Places, TacFunction};
use std::alloc::Global;

// as many words as the largest frame has
const MOST_WORDS: usize = LARGEST_FRAME as usize / 4;

// words below this offset from x2 are in the reach of an immediate
const REACH: u32 = 2048;

const RETURN_ADDRESS: u32 = 1;

const SAVED_REGISTERS: [u32; 12] = [8, 9, 18, 19, 20, 21, 22, 23, 24, 25, 26, 27];

// ---- arguments

fn arguments_of(i: &Instruction) -> usize
    ensures { result ≡ arguments_of (instruction_tree i.now) }
{
    match i {
        Instruction::Move(_, _) => 0,
        Instruction::Unary(_, _, _) => 0,
        Instruction::Binary(_, _, _, _) => 0,
        Instruction::Convert(_, _, _) => 0,
        Instruction::AddressOf(_, _) => 0,
        Instruction::Load(_, _, _) => 0,
        Instruction::Store(_, _, _) => 0,
        Instruction::Copy { .. } => 0,
        Instruction::Fill(_, _) => 0,
        Instruction::Call(_, _, arguments) => arguments.len(),
        Instruction::Jump(_) => 0,
        Instruction::Branch(_, _) => 0,
        Instruction::Return(_) => 0,
    }
}

/// The most words of arguments that one instruction passes on the stack.
fn most_passed(code: &[Instruction]) -> usize
    ensures { result ≡ most_passed (map instruction_tree code.now) }
{
    let mut most = 0;
    for i in code {
        most = most.max(arguments_of(i).saturating_sub(MOST_REGISTER_ARGUMENTS as usize));
    }
    most
}

fn outgoing_words(f: &TacFunction) -> u32
    requires { spec.outgoing_words (function_tree f.now) < 2 ^ 32 }
    ensures { result ≡ spec.outgoing_words (function_tree f.now) }
{
    most_passed(&f.code) as u32
}

// ---- what is kept

#[tactic(auto, using(crate::proofs::OffsetLaws::slots_most))]
fn slots_among(places: &[Place]) -> usize
    ensures count { result ≡ slots_among places.now }
    ensures most { result ≤ length places.now }
{
    let mut count = 0;
    for place in places {
        match place {
            Place::Slot(_) => count += 1,
            Place::Register(_) => {}
        }
    }
    count
}

fn is_among(places: &[Place], register: u32) -> bool
    ensures { result ≡ spec.is_among places.now register }
{
    for place in places {
        match place {
            Place::Slot(_) => {}
            Place::Register(r) => {
                if *r == register {
                    return true;
                }
            }
        }
    }
    false
}

#[tactic(auto, using(crate::proofs::OffsetLaws::used_most))]
fn used_count(places: &[Place], registers: &[u32]) -> usize
    ensures count { result ≡ length (spec.used_among places.now registers.now) }
    ensures most { result ≤ length registers.now }
{
    let mut count = 0;
    for register in registers {
        if is_among(places, *register) {
            count += 1;
        }
    }
    count
}

fn kept(places: &Places) -> u32
    requires { spec.kept (places_tree places.now) < 2 ^ 32 }
    ensures { result ≡ spec.kept (places_tree places.now) }
{
    used_count(&places.at, &SAVED_REGISTERS) as u32 + slots_among(&places.at) as u32
}

// ---- the return address

fn is_function(callee: Callee) -> bool
    ensures { result ≡ spec.is_function callee }
{
    match callee {
        Callee::Function(_) => true,
        Callee::PutChar => false,
        Callee::GetChar => false,
    }
}

fn calls_function(i: &Instruction) -> bool
    ensures { result ≡ spec.calls_function (instruction_tree i.now) }
{
    match i {
        Instruction::Move(_, _) => false,
        Instruction::Unary(_, _, _) => false,
        Instruction::Binary(_, _, _, _) => false,
        Instruction::Convert(_, _, _) => false,
        Instruction::AddressOf(_, _) => false,
        Instruction::Load(_, _, _) => false,
        Instruction::Store(_, _, _) => false,
        Instruction::Copy { .. } => false,
        Instruction::Fill(_, _) => false,
        Instruction::Call(_, callee, _) => is_function(*callee),
        Instruction::Jump(_) => false,
        Instruction::Branch(_, _) => false,
        Instruction::Return(_) => false,
    }
}

fn any_calls_function(code: &[Instruction]) -> bool
    ensures { result ≡ list_any spec.calls_function (map instruction_tree code.now) }
{
    for i in code {
        if calls_function(i) {
            return true;
        }
    }
    false
}

/// Whether the frame of a function with so many bytes of blocks keeps the return address.
#[tactic(auto, unfolding(crate::specs::Layout::keeps_return_address))]
fn keeps_return_address(f: &TacFunction, places: &Places, blocks: u32) -> bool
    requires words { 4 * (spec.outgoing_words (function_tree f.now) + spec.kept (places_tree places.now)) + blocks < 2 ^ 32 }
    requires blocks { blocks ≡ spec.total (function_tree f.now).blocks }
    ensures { result ≡ spec.keeps_return_address (function_tree f.now) (places_tree places.now) }
{
    any_calls_function(&f.code) || 4 * (outgoing_words(f) + kept(places)) + blocks >= REACH
}

fn return_words(f: &TacFunction, places: &Places, blocks: u32) -> u32
    requires words { 4 * (spec.outgoing_words (function_tree f.now) + spec.kept (places_tree places.now)) + blocks < 2 ^ 32 }
    requires blocks { blocks ≡ spec.total (function_tree f.now).blocks }
    ensures words { result ≡ spec.return_words (function_tree f.now) (places_tree places.now) }
    ensures few { result ≤ 1 }
{
    if keeps_return_address(f, places, blocks) {
        1
    } else {
        0
    }
}

// ---- the registers that are stored

fn put_used(stored: &mut Vec<u32>, places: &[Place], registers: &[u32]) -> Result<(), NoMemory>
    ensures { OnOk result (stored.new.items ≡ stored.old.items ++ spec.used_among places.now registers.now) }
{
    for register in registers {
        if is_among(places, *register) {
            stored.push(*register)?;
        }
    }
    Ok(())
}

fn return_register(alloc: Global, is_kept: bool) -> Result<Vec<u32>, NoMemory>
    ensures { IfOk result (λ r. r.items ≡ spec.return_register is_kept) }
{
    let mut stored = Vec::new(alloc);
    if is_kept {
        stored.push(RETURN_ADDRESS)?;
    }
    Ok(stored)
}

/// The registers that the entry of the function stores: x1, where the frame keeps the return
/// address, and those that the function gives back to its caller as they were, which are those
/// among x8, x9 and x18 to x27 in which a temporary stands, in rising order.
#[tactic(auto, using(crate::proofs::OffsetLaws::frame_has_room))]
pub fn stored_registers(
    alloc: Global,
    f: &TacFunction,
    places: &Places,
) -> Result<Vec<u32>, NoMemory>
    requires { spec.FrameFits (function_tree f.now) (places_tree places.now) }
    ensures { IfOk result (λ r. r.items ≡ spec.stored_registers (function_tree f.now) (places_tree places.now)) }
{
    let mut stored = return_register(alloc, keeps_return_address(f, places, total(&f.blocks)))?;
    put_used(&mut stored, &places.at, &SAVED_REGISTERS)?;
    Ok(stored)
}

// ---- slots

fn words_before_slots(f: &TacFunction, places: &Places, blocks: u32) -> u32
    requires words { 4 * (spec.outgoing_words (function_tree f.now) + spec.kept (places_tree places.now)) + blocks ≤ 2 ^ 30 }
    requires blocks { blocks ≡ spec.total (function_tree f.now).blocks }
    ensures { result ≡ spec.words_before_slots (function_tree f.now) (places_tree places.now) }
{
    let used = used_count(&places.at, &SAVED_REGISTERS) as u32;
    outgoing_words(f) + return_words(f, places, blocks) + used
}

/// How many temporaries in slots come behind the last one in this slot, where the slot has one.
fn behind_last(places: &[Place], slot: u32) -> usize
    ensures { result ≡ unwrap_or (spec.behind_last places.now slot) 0 }
{
    let mut left = slots_among(places);
    let mut behind = 0;
    for place in places {
        match place {
            Place::Slot(k) => {
                left -= 1;
                if *k == slot {
                    behind = left;
                }
            }
            Place::Register(_) => {}
        }
    }
    behind
}

#[tactic(auto, using(crate::proofs::OffsetLaws::behind_most))]
fn slot_0(f: &TacFunction, places: &Places, blocks: u32) -> u32
    requires words { 4 * (spec.outgoing_words (function_tree f.now) + spec.kept (places_tree places.now)) + blocks ≤ 2 ^ 30 }
    requires blocks { blocks ≡ spec.total (function_tree f.now).blocks }
    ensures { result ≡ spec.slot_at (function_tree f.now) (places_tree places.now) 0 }
{
    4 * (words_before_slots(f, places, blocks) + behind_last(&places.at, 0) as u32)
}

/// Where the slots lie, from x2 on, by their numbers.
#[tactic(auto, using(crate::proofs::OffsetLaws::frame_has_room))]
pub fn slot_starts(alloc: Global, f: &TacFunction, places: &Places) -> Result<Starts, NoMemory>
    requires { spec.FrameFits (function_tree f.now) (places_tree places.now) }
    ensures { IfOk result (λ slots. BeginAt slots (spec.slot_at (function_tree f.now) (places_tree places.now))) }
{
    let mut left = slots_among(&places.at);
    let before = 4 * words_before_slots(f, places, total(&f.blocks));
    let mut at = vec![in alloc; before; left]?;
    for place in &places.at {
        match place {
            Place::Slot(k) => {
                left -= 1;
                if (*k as usize) < at.len() {
                    at[*k as usize] = before + 4 * left as u32;
                }
            }
            Place::Register(_) => {}
        }
    }
    Ok(Starts { at, end: before })
}

// ---- the frame

#[tactic(auto, unfolding(crate::specs::Layout::frame_cost))]
fn frame_cost(words: u32, blocks: u32) -> u32
    requires { 4 * words + blocks ≤ 2 ^ 31 }
    ensures { result ≡ spec.frame_cost words blocks }
{
    if words == 0 && blocks == 0 {
        16
    } else {
        (4 * words + blocks - 1) / 16 * 16 + 16
    }
}

fn frame_words(f: &TacFunction, places: &Places, blocks: u32) -> u32
    requires words { 4 * (spec.outgoing_words (function_tree f.now) + spec.kept (places_tree places.now)) + blocks ≤ 2 ^ 30 }
    requires blocks { blocks ≡ spec.total (function_tree f.now).blocks }
    ensures { result ≡ spec.frame_words (function_tree f.now) (places_tree places.now) }
{
    outgoing_words(f) + return_words(f, places, blocks) + kept(places)
}

/// The frame of a function whose temporaries stand in these places: with room for the arguments
/// past the eighth of its calls, the return address, where it is kept, the registers that are given
/// back, the slots, and the blocks.
#[tactic(auto, using(crate::proofs::OffsetLaws::frame_has_room))]
pub fn layout(f: &TacFunction, places: &Places) -> Frame
    requires { spec.FrameFits (function_tree f.now) (places_tree places.now) }
    ensures { result ≡ spec.layout (function_tree f.now) (places_tree places.now) }
{
    let blocks = total(&f.blocks);
    let words = frame_words(f, places, blocks);
    Frame {
        cost: frame_cost(words, blocks),
        outgoing: 4 * outgoing_words(f),
        slots: slot_0(f, places, blocks),
        placed: 4 * words,
    }
}

/// The frame, where it is no larger than the largest.
#[tactic(auto, using(crate::proofs::OffsetLaws::frame_sizes))]
pub fn try_layout(f: &TacFunction, places: &Places) -> Option<Frame>
    ensures fits { IsSome result ↔ spec.FrameFits (function_tree f.now) (places_tree places.now) }
    ensures frame { IfSome result (spec.IsFrame (function_tree f.now) (places_tree places.now)) }
{
    if slots_among(&places.at) > MOST_WORDS {
        return None;
    }
    if most_passed(&f.code) > MOST_WORDS {
        return None;
    }
    let blocks = total_within(&f.blocks)?;
    let words = frame_words(f, places, blocks);
    if frame_cost(words, blocks) <= LARGEST_FRAME {
        Some(layout(f, places))
    } else {
        None
    }
}
