// What instructions read and write.
ghost use Rattle.std.specs.Prelude.{◌≡◌, ◌≤◌, ◌++◌, length, option_to_list};
ghost use Rattle.std.specs.List.{slice_get};
ghost use Rattle.qs_tac.specs.TreeOf.{instruction_tree};
ghost use Rattle.qs_tac.specs.Uses.{read_by, read_by_address, read_by_all};
ghost use Rattle.qs_tac.specs.Liveness.{goes_on, is_call, target};
ghost use Rattle.qs_tac.specs.Uses.{read_by_condition, reads, writes};

use crate::instruction::Instruction;
use crate::operands::{Address, Condition, Operand};

impl Operand {
    /// The temporary that the operand reads, if it reads one.
    pub fn temporary(&self) -> Option<u32>
        ensures { option_to_list result ≡ read_by self.now }
    {
        match self {
            Operand::Temporary(t) => Some(*t),
            Operand::Integer(t) => Some(*t),
            Operand::Byte(t) => Some(*t),
            Operand::Constant(_) => None,
            Operand::Null => None,
            Operand::Local(_) => None,
            Operand::Data(_) => None,
        }
    }
}

fn read_by_one(a: &Operand, k: usize) -> Option<u32>
    ensures { result ≡ slice_get (read_by a.now) k }
{
    if k == 0 { a.temporary() } else { None }
}

fn read_by_two(a: &Operand, b: &Operand, k: usize) -> Option<u32>
    ensures { result ≡ slice_get (read_by a.now ++ read_by b.now) k }
{
    match a.temporary() {
        Some(t) => {
            if k == 0 {
                Some(t)
            } else {
                read_by_one(b, k - 1)
            }
        }
        None => read_by_one(b, k),
    }
}

fn read_by_each(operands: &[Operand], k: usize) -> Option<u32>
    ensures { result ≡ slice_get (read_by_all operands.now) k }
{
    let mut left = k;
    for a in operands {
        if let Some(t) = a.temporary() {
            if left == 0 {
                return Some(t);
            }
            left -= 1;
        }
    }
    None
}

impl Address {
    /// How many temporaries the address reads.
    pub fn reads(&self) -> usize
        ensures { result ≡ length (read_by_address self.now) }
    {
        let base = usize::from(self.base.temporary().is_some());
        match &self.index {
            None => base,
            Some(index) => base + usize::from(index.count.temporary().is_some()),
        }
    }

    /// The k-th of the temporaries that the address reads, from 0.
    pub fn read_at(&self, k: usize) -> Option<u32>
        ensures { result ≡ slice_get (read_by_address self.now) k }
    {
        match &self.index {
            None => read_by_one(&self.base, k),
            Some(index) => read_by_two(&self.base, &index.count, k),
        }
    }
}

fn read_by_access(p: &Address, a: &Operand, k: usize) -> Option<u32>
    ensures { result ≡ slice_get (read_by_address p.now ++ read_by a.now) k }
{
    let before = p.reads();
    if k < before {
        p.read_at(k)
    } else {
        read_by_one(a, k - before)
    }
}

fn read_by_both(p: &Address, q: &Address, k: usize) -> Option<u32>
    ensures { result ≡ slice_get (read_by_address p.now ++ read_by_address q.now) k }
{
    let before = p.reads();
    if k < before {
        p.read_at(k)
    } else {
        q.read_at(k - before)
    }
}

impl Condition {
    /// The k-th of the temporaries that the condition reads, from 0.
    pub fn read_at(&self, k: usize) -> Option<u32>
        ensures { result ≡ slice_get (read_by_condition self.now) k }
    {
        match self {
            Condition::NotZero(a) => read_by_one(a, k),
            Condition::Zero(a) => read_by_one(a, k),
            Condition::Compare(_, _, a, b) => read_by_two(a, b, k),
            Condition::ComparePointers(_, a, b) => read_by_two(a, b, k),
        }
    }
}

impl Instruction {
    /// The k-th of the temporaries that the instruction reads, from 0, in the order of its
    /// operands; one that is read twice counts twice.
    pub fn read_at(&self, k: usize) -> Option<u32>
        ensures { result ≡ slice_get (reads (instruction_tree self.now)) k }
    {
        match self {
            Instruction::Move(_, a) => read_by_one(a, k),
            Instruction::Unary(_, _, a) => read_by_one(a, k),
            Instruction::Binary(_, _, a, b) => read_by_two(a, b, k),
            Instruction::Convert(_, _, a) => read_by_one(a, k),
            Instruction::AddressOf(_, p) => p.read_at(k),
            Instruction::Load(_, _, p) => p.read_at(k),
            Instruction::Store(_, p, a) => read_by_access(p, a, k),
            Instruction::Copy { to, from, .. } => read_by_both(to, from, k),
            Instruction::Fill(_, p) => p.read_at(k),
            Instruction::Call(_, _, arguments) => read_by_each(arguments, k),
            Instruction::Jump(_) => None,
            Instruction::Branch(c, _) => c.read_at(k),
            Instruction::Return(None) => None,
            Instruction::Return(Some(a)) => read_by_one(a, k),
        }
    }

    /// At least as many as the temporaries that it reads.
    #[tactic(auto, using(crate::proofs::UseLaws::reads_within))]
    pub fn read_limit(&self) -> usize
        ensures { length (reads (instruction_tree self.now)) ≤ result }
    {
        match self {
            Instruction::Call(_, _, arguments) => arguments.len(),
            _ => 4,
        }
    }

    /// The temporary that the instruction writes, if it writes one.
    pub fn written(&self) -> Option<u32>
        ensures { result ≡ writes (instruction_tree self.now) }
    {
        match self {
            Instruction::Move(x, _) => Some(*x),
            Instruction::Unary(_, x, _) => Some(*x),
            Instruction::Binary(_, x, _, _) => Some(*x),
            Instruction::Convert(_, x, _) => Some(*x),
            Instruction::AddressOf(x, _) => Some(*x),
            Instruction::Load(_, x, _) => Some(*x),
            Instruction::Store(_, _, _) => None,
            Instruction::Copy { .. } => None,
            Instruction::Fill(_, _) => None,
            Instruction::Call(x, _, _) => *x,
            Instruction::Jump(_) => None,
            Instruction::Branch(_, _) => None,
            Instruction::Return(_) => None,
        }
    }

    /// Whether the instruction behind it can come next.
    pub fn goes_on(&self) -> bool
        ensures { result ≡ goes_on (instruction_tree self.now) }
    {
        match self {
            Instruction::Move(_, _) => true,
            Instruction::Unary(_, _, _) => true,
            Instruction::Binary(_, _, _, _) => true,
            Instruction::Convert(_, _, _) => true,
            Instruction::AddressOf(_, _) => true,
            Instruction::Load(_, _, _) => true,
            Instruction::Store(_, _, _) => true,
            Instruction::Copy { .. } => true,
            Instruction::Fill(_, _) => true,
            Instruction::Call(_, _, _) => true,
            Instruction::Jump(_) => false,
            Instruction::Branch(_, _) => true,
            Instruction::Return(_) => false,
        }
    }

    /// The index of the instruction to which it may jump, if it may.
    pub fn target(&self) -> Option<u32>
        ensures { result ≡ target (instruction_tree self.now) }
    {
        match self {
            Instruction::Move(_, _) => None,
            Instruction::Unary(_, _, _) => None,
            Instruction::Binary(_, _, _, _) => None,
            Instruction::Convert(_, _, _) => None,
            Instruction::AddressOf(_, _) => None,
            Instruction::Load(_, _, _) => None,
            Instruction::Store(_, _, _) => None,
            Instruction::Copy { .. } => None,
            Instruction::Fill(_, _) => None,
            Instruction::Call(_, _, _) => None,
            Instruction::Jump(to) => Some(*to),
            Instruction::Branch(_, to) => Some(*to),
            Instruction::Return(_) => None,
        }
    }

    /// Whether it calls a function.
    pub fn is_call(&self) -> bool
        ensures { result ≡ is_call (instruction_tree self.now) }
    {
        match self {
            Instruction::Move(_, _) => false,
            Instruction::Unary(_, _, _) => false,
            Instruction::Binary(_, _, _, _) => false,
            Instruction::Convert(_, _, _) => false,
            Instruction::AddressOf(_, _) => false,
            Instruction::Load(_, _, _) => false,
            Instruction::Store(_, _, _) => false,
            Instruction::Copy { .. } => false,
            Instruction::Fill(_, _) => false,
            Instruction::Call(_, _, _) => true,
            Instruction::Jump(_) => false,
            Instruction::Branch(_, _) => false,
            Instruction::Return(_) => false,
        }
    }
}
