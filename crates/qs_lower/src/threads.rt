// No jump leads to a jump: each goes where the jumps that it would lead to go in the end.
ghost use Rattle.std.specs.Prelude.{◌≡◌, IfOk, OnOk, Some, length, map};
ghost use Rattle.std.specs.List.{slice_get};
ghost use Rattle.qs_tac.specs.TreeOf.{instruction_tree};
ghost use Rattle.qs_lower.specs.Leads.{leads_of, lead_in, follow_leads, IsThreaded, followed};
ghost use Rattle.qs_lower.specs.Leads.{instruction_trees};
ghost use Rattle.qs_lower_expressions.specs.Threads as spec;

use qs_base::NoMemory;
use qs_tac::Instruction;
use std::alloc::Global;

// The index to which the instruction jumps in any case.
fn leads_to(i: &Instruction) -> Option<u32>
    ensures { result ≡ spec.leads_to (Some (instruction_tree i.now)) }
{
    match i {
        Instruction::Jump(to) => Some(*to),
        Instruction::Move(_, _) => None,
        Instruction::Unary(_, _, _) => None,
        Instruction::Binary(_, _, _, _) => None,
        Instruction::Convert(_, _, _) => None,
        Instruction::AddressOf(_, _) => None,
        Instruction::Load(_, _, _) => None,
        Instruction::Store(_, _, _) => None,
        Instruction::Copy { .. } => None,
        Instruction::Fill(_, _) => None,
        Instruction::Call(_, _, _) => None,
        Instruction::Branch(_, _) => None,
        Instruction::Return(_) => None,
    }
}

// That of each instruction.
fn leads_of(alloc: Global, code: &[Instruction]) -> Result<Vec<Option<u32>>, NoMemory>
    ensures { IfOk result (λ r. r.items ≡ leads_of (map instruction_tree code.now)) }
{
    let mut all = Vec::new(alloc);
    for i in code {
        all.push(leads_to(i))?;
    }
    Ok(all)
}

fn lead_in(leads: &[Option<u32>], index: u32) -> Option<u32>
    ensures { result ≡ lead_in (slice_get leads.now index) }
{
    *leads.get(index as usize)?
}

// Where jumps to the index lead in the end, unless they lead round in a circle.
fn follow(leads: &[Option<u32>], index: u32) -> u32
    ensures { result ≡ follow_leads leads.now (length leads.now) index }
{
    let mut at = index;
    let mut left = leads.len();
    while left > 0 {
        match lead_in(leads, at) {
            None => return at,
            Some(to) => {
                if to == at {
                    return at;
                }
                at = to;
            }
        }
        left -= 1;
    }
    at
}

fn retarget(leads: &[Option<u32>], i: &mut Instruction)
    ensures { instruction_tree i.new ≡ followed leads.now (instruction_tree i.old) }
{
    match i {
        Instruction::Jump(to) => *to = follow(leads, *to),
        Instruction::Branch(_, to) => *to = follow(leads, *to),
        Instruction::Move(_, _) => {}
        Instruction::Unary(_, _, _) => {}
        Instruction::Binary(_, _, _, _) => {}
        Instruction::Convert(_, _, _) => {}
        Instruction::AddressOf(_, _) => {}
        Instruction::Load(_, _, _) => {}
        Instruction::Store(_, _, _) => {}
        Instruction::Copy { .. } => {}
        Instruction::Fill(_, _) => {}
        Instruction::Call(_, _, _) => {}
        Instruction::Return(_) => {}
    }
}

fn retarget_all(leads: &[Option<u32>], code: &mut [Instruction])
    ensures { instruction_trees code.new ≡ map (followed leads.now) (instruction_trees code.old) }
{
    for i in code.iter_mut() {
        retarget(leads, i);
    }
}

/// Lets each jump and branch of a function's code go where the jumps that stand there lead.
pub fn thread(alloc: Global, code: &mut Vec<Instruction>) -> Result<(), NoMemory>
    ensures { OnOk result (IsThreaded code.old code.new) }
{
    let leads = leads_of(alloc, code)?;
    retarget_all(&leads, code);
    Ok(())
}
