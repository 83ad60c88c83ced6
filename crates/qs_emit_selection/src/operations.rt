// The code of operations. rd gets the result and may be a register in which an operand stands.
ghost use Rattle.std.specs.Prelude.{◌≡◌, Some, OnOk, nat_lt};
ghost use Rattle.qs_memory.specs.Partial.{only_if};
ghost use Rattle.qs_emit_selection.specs.ContextOf.{context_tree as tree, moved_code};
ghost use Rattle.qs_emit_selection.specs.Operations as spec;
ghost use Rattle.qs_emit_selection.specs.Operations.{elements_between};
ghost use Rattle.qs_emit_selection.specs.Puts.{Emits, EmitsMove};

use crate::context::FunctionContext;
use crate::immediates::{below, is_small, small};
use crate::mnemonics::{add, addi, andi, div, on_registers, slt, sltiu, sltu, sub, xori};
use crate::operands::put_operand;
use crate::pieces::{put, put_constant, put_product};
use qs_asm::Item;
use qs_base::{NoMemory, mul32, sub32};
use qs_isa::{Immediate, Instr, OpImmKind, OpKind, Register, ShiftAmount, ShiftImmKind};
use qs_memory::{
    Arithmetic, BinaryOperation, Comparison, Direction, Scalar, Signedness, UnaryOperation,
};
use qs_tac::Operand;

// ---- constants

fn constant_of(o: Operand) -> Option<u32>
    ensures { result ≡ spec.constant_of o }
{
    match o {
        Operand::Constant(n) => Some(n),
        Operand::Temporary(_) => None,
        Operand::Integer(_) => None,
        Operand::Byte(_) => None,
        Operand::Null => None,
        Operand::Local(_) => None,
        Operand::Data(_) => None,
    }
}

fn negated(word: u32) -> u32
    ensures { result ≡ spec.negated word }
{
    sub32(0, word)
}

fn if_small(kind: OpImmKind, rd: Register, rs1: Register, n: u32) -> Option<Instr>
    ensures { result ≡ spec.if_small n (Instr.OpImm kind rd rs1 n) }
{
    if is_small(n) {
        Some(Instr::OpImm {
            kind,
            rd,
            rs1,
            immediate: small(n),
        })
    } else {
        None
    }
}

fn if_amount(kind: ShiftImmKind, rd: Register, rs1: Register, n: u32) -> Option<Instr>
    ensures { result ≡ only_if (nat_lt n 32) (Some (Instr.ShiftImm kind rd rs1 n)) }
{
    if n < 32 {
        Some(Instr::ShiftImm {
            kind,
            rd,
            rs1,
            amount: ShiftAmount::new(n as u8),
        })
    } else {
        None
    }
}

/// One instruction for an operation with a constant on its right, where there is one.
fn with_constant(op: Arithmetic, s: Signedness, rd: Register, rs: Register, n: u32) -> Option<Instr>
    ensures { result ≡ spec.with_constant op s rd rs n }
{
    match op {
        Arithmetic::Add => if_small(OpImmKind::Addi, rd, rs, n),
        Arithmetic::Subtract => if_small(OpImmKind::Addi, rd, rs, negated(n)),
        Arithmetic::Multiply => None,
        Arithmetic::Divide => None,
        Arithmetic::Remainder => None,
        Arithmetic::ShiftLeft => if_amount(ShiftImmKind::Slli, rd, rs, n),
        Arithmetic::ShiftRight => match s {
            Signedness::Signed => if_amount(ShiftImmKind::Srai, rd, rs, n),
            Signedness::Unsigned => if_amount(ShiftImmKind::Srli, rd, rs, n),
        },
        Arithmetic::And => if_small(OpImmKind::Andi, rd, rs, n),
        Arithmetic::Or => if_small(OpImmKind::Ori, rd, rs, n),
        Arithmetic::Xor => if_small(OpImmKind::Xori, rd, rs, n),
    }
}

fn with_operand(
    op: Arithmetic,
    s: Signedness,
    rd: Register,
    rs: Register,
    right: Operand,
) -> Option<Instr>
    ensures { result ≡ spec.with_operand op s rd rs right }
{
    with_constant(op, s, rd, rs, constant_of(right)?)
}

// ---- integers

fn kind_of(op: Arithmetic, s: Signedness) -> OpKind
    ensures { result ≡ spec.kind_of op s }
{
    match op {
        Arithmetic::Add => OpKind::Add,
        Arithmetic::Subtract => OpKind::Sub,
        Arithmetic::Multiply => OpKind::Mul,
        Arithmetic::Divide => match s {
            Signedness::Signed => OpKind::Div,
            Signedness::Unsigned => OpKind::Divu,
        },
        Arithmetic::Remainder => match s {
            Signedness::Signed => OpKind::Rem,
            Signedness::Unsigned => OpKind::Remu,
        },
        Arithmetic::ShiftLeft => OpKind::Sll,
        Arithmetic::ShiftRight => match s {
            Signedness::Signed => OpKind::Sra,
            Signedness::Unsigned => OpKind::Srl,
        },
        Arithmetic::And => OpKind::And,
        Arithmetic::Or => OpKind::Or,
        Arithmetic::Xor => OpKind::Xor,
    }
}

/// rd becomes the result of the operation on two integers.
pub fn put_arithmetic(
    items: &mut Vec<Item>,
    c: &FunctionContext,
    op: Arithmetic,
    s: Signedness,
    rd: Register,
    x: Operand,
    y: Operand,
) -> Result<(), NoMemory>
    ensures { OnOk result (Emits items.old items.new (spec.arithmetic (tree c.now) op s rd x y)) }
{
    let left = put_operand(items, c, Register::A0, x)?;
    match with_operand(op, s, rd, left, y) {
        Some(i) => put(items, i),
        None => {
            let right = put_operand(items, c, Register::A1, y)?;
            put(items, on_registers(kind_of(op, s), rd, left, right))
        }
    }
}

// ---- comparisons: rd becomes 1 or 0

fn less_than(s: Signedness, rd: Register, left: Register, right: Register) -> Instr
    ensures { result ≡ spec.less_than s rd left right }
{
    match s {
        Signedness::Signed => slt(rd, left, right),
        Signedness::Unsigned => sltu(rd, left, right),
    }
}

fn less_than_constant(s: Signedness, rd: Register, rs: Register, n: u32) -> Option<Instr>
    ensures { result ≡ spec.less_than_constant s rd rs n }
{
    match s {
        Signedness::Signed => if_small(OpImmKind::Slti, rd, rs, n),
        Signedness::Unsigned => if_small(OpImmKind::Sltiu, rd, rs, n),
    }
}

fn less_than_operand(s: Signedness, rd: Register, rs: Register, right: Operand) -> Option<Instr>
    ensures { result ≡ spec.less_than_operand s rd rs right }
{
    less_than_constant(s, rd, rs, constant_of(right)?)
}

fn put_less(
    items: &mut Vec<Item>,
    c: &FunctionContext,
    s: Signedness,
    rd: Register,
    x: Operand,
    y: Operand,
) -> Result<(), NoMemory>
    ensures { OnOk result (Emits items.old items.new (spec.less (tree c.now) s rd x y)) }
{
    let left = put_operand(items, c, Register::A0, x)?;
    match less_than_operand(s, rd, left, y) {
        Some(i) => put(items, i),
        None => {
            let right = put_operand(items, c, Register::A1, y)?;
            put(items, less_than(s, rd, left, right))
        }
    }
}

fn put_apart(
    items: &mut Vec<Item>,
    c: &FunctionContext,
    rd: Register,
    x: Operand,
    y: Operand,
) -> Result<(), NoMemory>
    ensures { OnOk result (Emits items.old items.new (spec.apart (tree c.now) rd x y)) }
{
    put_arithmetic(
        items,
        c,
        Arithmetic::Subtract,
        Signedness::Unsigned,
        rd,
        x,
        y,
    )
}

fn put_compare(
    items: &mut Vec<Item>,
    c: &FunctionContext,
    op: Comparison,
    s: Signedness,
    rd: Register,
    x: Operand,
    y: Operand,
) -> Result<(), NoMemory>
    ensures { OnOk result (Emits items.old items.new (spec.compare (tree c.now) op s rd x y)) }
{
    match op {
        Comparison::Less => put_less(items, c, s, rd, x, y),
        Comparison::Greater => put_less(items, c, s, rd, y, x),
        Comparison::LessOrEqual => {
            put_less(items, c, s, rd, y, x)?;
            put(items, xori(rd, rd, below(1)))
        }
        Comparison::GreaterOrEqual => {
            put_less(items, c, s, rd, x, y)?;
            put(items, xori(rd, rd, below(1)))
        }
        Comparison::Equal => {
            put_apart(items, c, rd, x, y)?;
            put(items, sltiu(rd, rd, below(1)))
        }
        Comparison::NotEqual => {
            put_apart(items, c, rd, x, y)?;
            put(items, sltu(rd, Register::ZERO, rd))
        }
    }
}

// ---- pointers

fn directed(direction: Direction, bytes: u32) -> u32
    ensures { result ≡ spec.directed direction bytes }
{
    match direction {
        Direction::Up => bytes,
        Direction::Down => negated(bytes),
    }
}

fn step(direction: Direction, rd: Register, pointer: Register, bytes: Register) -> Instr
    ensures { result ≡ spec.step direction rd pointer bytes }
{
    match direction {
        Direction::Up => add(rd, pointer, bytes),
        Direction::Down => sub(rd, pointer, bytes),
    }
}

fn put_move_by(
    items: &mut Vec<Item>,
    rd: Register,
    pointer: Register,
    bytes: u32,
) -> Result<(), NoMemory>
    ensures { OnOk result (Emits items.old items.new (spec.move_by rd pointer bytes)) }
{
    if is_small(bytes) {
        put(items, addi(rd, pointer, small(bytes)))
    } else {
        put_constant(items, Register::A2, bytes)?;
        put(items, add(rd, pointer, Register::A2))
    }
}

fn put_move_by_elements(
    items: &mut Vec<Item>,
    direction: Direction,
    rd: Register,
    pointer: Register,
    count: Register,
    element: u32,
) -> Result<(), NoMemory>
    ensures { OnOk result (EmitsMove items.old items.new direction rd pointer count element) }
{
    if element == 1 {
        put(items, step(direction, rd, pointer, count))
    } else {
        put_product(items, Register::A3, count, element)?;
        put(items, step(direction, rd, pointer, Register::A3))
    }
}

fn put_moved(
    items: &mut Vec<Item>,
    c: &FunctionContext,
    direction: Direction,
    element: u32,
    rd: Register,
    x: Operand,
    y: Operand,
) -> Result<(), NoMemory>
    ensures { OnOk result (Emits items.old items.new (moved_code c.now direction element rd x y)) }
{
    let pointer = put_operand(items, c, Register::A0, x)?;
    match constant_of(y) {
        Some(n) => put_move_by(items, rd, pointer, directed(direction, mul32(n, element))),
        None => {
            let count = put_operand(items, c, Register::A1, y)?;
            put_move_by_elements(items, direction, rd, pointer, count, element)
        }
    }
}

fn put_elements_between(
    items: &mut Vec<Item>,
    element: u32,
    rd: Register,
    left: Register,
    right: Register,
) -> Result<(), NoMemory>
    ensures { OnOk result (Emits items.old items.new (elements_between element rd left right)) }
{
    if element == 1 {
        put(items, sub(rd, left, right))
    } else {
        put(items, sub(Register::A3, left, right))?;
        put_constant(items, Register::A2, element)?;
        put(items, div(rd, Register::A3, Register::A2))
    }
}

// ---- all of them

/// rd becomes the result of the operation on two values.
pub fn put_binary(
    items: &mut Vec<Item>,
    c: &FunctionContext,
    op: BinaryOperation,
    rd: Register,
    x: Operand,
    y: Operand,
) -> Result<(), NoMemory>
    ensures { OnOk result (Emits items.old items.new (spec.binary (tree c.now) op rd x y)) }
{
    match op {
        BinaryOperation::Arithmetic(op, s) => put_arithmetic(items, c, op, s, rd, x, y),
        BinaryOperation::Compare(op, s) => put_compare(items, c, op, s, rd, x, y),
        BinaryOperation::Move(direction, _, element) => {
            put_moved(items, c, direction, element, rd, x, y)
        }
        BinaryOperation::Difference(element) => {
            let left = put_operand(items, c, Register::A0, x)?;
            let right = put_operand(items, c, Register::A1, y)?;
            put_elements_between(items, element, rd, left, right)
        }
        BinaryOperation::ComparePointers(op) => {
            put_compare(items, c, op, Signedness::Unsigned, rd, x, y)
        }
    }
}

#[tactic(auto, using(crate::proofs::Ranges::small_signed))]
fn all_ones() -> Immediate
    ensures { result ≡ 4294967295 }
{
    Immediate::new(u32::MAX)
}

/// The operation on a register.
pub fn unary_instruction(op: UnaryOperation, rd: Register, rs: Register) -> Instr
    ensures { result ≡ spec.unary_instruction op rd rs }
{
    match op {
        UnaryOperation::Plus(_) => addi(rd, rs, below(0)),
        UnaryOperation::Minus(_) => sub(rd, Register::ZERO, rs),
        UnaryOperation::Complement(_) => xori(rd, rs, all_ones()),
        UnaryOperation::Not => sltiu(rd, rs, below(1)),
        UnaryOperation::Truth => sltu(rd, Register::ZERO, rs),
    }
}

/// A register as a value of the type.
pub fn conversion(s: Scalar, rd: Register, rs: Register) -> Instr
    ensures { result ≡ spec.conversion s rd rs }
{
    match s {
        Scalar::Char => andi(rd, rs, below(255)),
        Scalar::Int => addi(rd, rs, below(0)),
        Scalar::Unsigned => addi(rd, rs, below(0)),
        Scalar::Pointer => addi(rd, rs, below(0)),
    }
}
