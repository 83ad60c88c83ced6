// Where code goes on, and the jumps and branches that take it there.
ghost use Rattle.std.specs.Prelude.{◌≡◌, [], ◌∷◌, IfOk, OnOk, length};
ghost use Rattle.qs_tac.specs.TreeOf.{instruction_tree};
ghost use Rattle.qs_lower_expressions.specs.Exits as spec;
ghost use Rattle.qs_lower_expressions.specs.Expressions.{known_size};
ghost use Rattle.qs_lower_expressions.specs.Plans.{exit_tree, Emits, EmitsBranch, EmitsKnown, Grows};
ghost use Rattle.qs_lower_expressions.specs.Plans.{GrowsByBranch, GrowsByKnown, does_fall};

use qs_base::{NoMemory, count};
use qs_memory::Comparison;
use qs_tac::{Condition, Instruction, Operand};

/// The index of an instruction where code goes on.
#[derive(Clone, Copy)]
pub enum Exit {
    /// it comes next, behind the code
    Falls(u32),
    /// it takes a jump
    Goes(u32),
}

impl Exit {
    /// Whether it comes next.
    pub fn is_fall(self) -> bool
        ensures { result ≡ spec.is_fall (exit_tree self) }
    {
        match self {
            Exit::Falls(_) => true,
            Exit::Goes(_) => false,
        }
    }

    /// The index.
    pub fn place(self) -> u32
        ensures { result ≡ spec.place_of (exit_tree self) }
    {
        match self {
            Exit::Falls(p) => p,
            Exit::Goes(p) => p,
        }
    }

    /// The same exit, of a part that doesn't stand at the end of the code.
    pub fn settled(self) -> Exit
        ensures { exit_tree result ≡ spec.settled (exit_tree self) }
    {
        Exit::Goes(self.place())
    }
}

/// Puts an instruction behind the code.
pub fn put(code: &mut Vec<Instruction>, instruction: Instruction) -> Result<(), NoMemory>
    ensures code { OnOk result (Emits code.old code.new (instruction_tree instruction ∷ [])) }
    ensures size { OnOk result (Grows code.old code.new 1) }
{
    code.push(instruction)?;
    Ok(())
}

/// The index of the instruction that comes next.
pub fn place(code: &[Instruction]) -> Result<u32, NoMemory>
    ensures { IfOk result (λ n. n ≡ length code.now) }
{
    count(code.len())
}

// ---- jumps

/// How many instructions a jump to the exit takes.
pub fn exit_size(is_fall: bool) -> u32
    ensures { result ≡ spec.exit_size is_fall }
{
    if is_fall { 0 } else { 1 }
}

/// The jump to the exit, where one is needed.
pub fn emit_exit(code: &mut Vec<Instruction>, exit: Exit) -> Result<(), NoMemory>
    ensures code { OnOk result (Emits code.old code.new (spec.exit_code (exit_tree exit))) }
    ensures size { OnOk result (Grows code.old code.new (spec.exit_size (does_fall exit))) }
{
    match exit {
        Exit::Falls(_) => Ok(()),
        Exit::Goes(p) => put(code, Instruction::Jump(p)),
    }
}

// ---- branches

fn opposite_comparison(op: Comparison) -> Comparison
    ensures { result ≡ spec.opposite_comparison op }
{
    match op {
        Comparison::Less => Comparison::GreaterOrEqual,
        Comparison::LessOrEqual => Comparison::Greater,
        Comparison::Greater => Comparison::LessOrEqual,
        Comparison::GreaterOrEqual => Comparison::Less,
        Comparison::Equal => Comparison::NotEqual,
        Comparison::NotEqual => Comparison::Equal,
    }
}

fn opposite(c: Condition) -> Condition
    ensures { result ≡ spec.opposite c }
{
    match c {
        Condition::NotZero(o) => Condition::Zero(o),
        Condition::Zero(o) => Condition::NotZero(o),
        Condition::Compare(op, s, o, p) => Condition::Compare(opposite_comparison(op), s, o, p),
        Condition::ComparePointers(op, o, p) => Condition::ComparePointers(
            opposite_comparison(op),
            o,
            p,
        ),
    }
}

/// How many instructions a branch takes.
pub fn branch_size(met: bool, unmet: bool) -> u32
    ensures { result ≡ spec.branch_size met unmet }
{
    if met {
        1
    } else if unmet {
        1
    } else {
        2
    }
}

/// The branch of a condition to one of two exits.
pub fn emit_branch(
    code: &mut Vec<Instruction>,
    c: Condition,
    met: Exit,
    unmet: Exit,
) -> Result<(), NoMemory>
    ensures code { OnOk result (EmitsBranch code.old code.new c met unmet) }
    ensures size { OnOk result (GrowsByBranch code.old code.new met unmet) }
{
    match met {
        Exit::Falls(y) => match unmet {
            Exit::Falls(_) => put(code, Instruction::Branch(c, y)),
            Exit::Goes(n) => put(code, Instruction::Branch(opposite(c), n)),
        },
        Exit::Goes(y) => match unmet {
            Exit::Falls(_) => put(code, Instruction::Branch(c, y)),
            Exit::Goes(n) => {
                put(code, Instruction::Branch(c, y))?;
                put(code, Instruction::Jump(n))
            }
        },
    }
}

/// How many instructions the test of an operand takes.
pub fn known_size(known: Option<bool>, met: bool, unmet: bool) -> u32
    ensures { result ≡ known_size known 0 met unmet }
{
    match known {
        None => branch_size(met, unmet),
        Some(true) => exit_size(met),
        Some(false) => exit_size(unmet),
    }
}

/// The test of an operand.
pub fn emit_known(
    code: &mut Vec<Instruction>,
    known: Option<bool>,
    o: Operand,
    met: Exit,
    unmet: Exit,
) -> Result<(), NoMemory>
    ensures code { OnOk result (EmitsKnown code.old code.new known o met unmet) }
    ensures size { OnOk result (GrowsByKnown code.old code.new known met unmet) }
{
    match known {
        None => emit_branch(code, Condition::NotZero(o), met, unmet),
        Some(true) => emit_exit(code, met),
        Some(false) => emit_exit(code, unmet),
    }
}
