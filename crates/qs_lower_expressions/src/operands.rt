// Which expressions are operands as they stand, and what is worked out of constants.
ghost use Rattle.std.specs.Prelude.{◌≡◌};
ghost use Rattle.qs_memory.specs.Integers as integers;
ghost use Rattle.qs_lower_expressions.specs.Operands as spec;

use qs_base::{add32, divs32, divu32, mul32, rems32, remu32, sll32, sra32, srl32, sub32};
use qs_core::BlockId;
use qs_memory::{
    Arithmetic, BinaryOperation, Comparison, Direction, Scalar, Signedness, UnaryOperation,
};
use qs_tac::{Operand, is_constant};

// ---- constants

fn constant(o: Operand) -> Option<u32>
    ensures { result ≡ spec.constant o }
{
    match o {
        Operand::Constant(n) => Some(n),
        Operand::Temporary(_) => None,
        Operand::Integer(_) => None,
        Operand::Byte(_) => None,
        Operand::Null => None,
        Operand::Local(_) => None,
        Operand::Data(_) => None,
    }
}

// ---- conversions

fn integer_operand(o: Operand) -> Option<Operand>
    ensures { result ≡ spec.integer_operand o }
{
    match o {
        Operand::Temporary(t) => Some(Operand::Integer(t)),
        Operand::Integer(t) => Some(Operand::Integer(t)),
        Operand::Byte(t) => Some(Operand::Byte(t)),
        Operand::Constant(n) => Some(Operand::Constant(n)),
        Operand::Null => None,
        Operand::Local(_) => None,
        Operand::Data(_) => None,
    }
}

fn byte_operand(o: Operand) -> Option<Operand>
    ensures { result ≡ spec.byte_operand o }
{
    match o {
        Operand::Temporary(t) => Some(Operand::Byte(t)),
        Operand::Integer(t) => Some(Operand::Byte(t)),
        Operand::Byte(t) => Some(Operand::Byte(t)),
        Operand::Constant(n) => Some(Operand::Constant(n % 256)),
        Operand::Null => None,
        Operand::Local(_) => None,
        Operand::Data(_) => None,
    }
}

fn pointer_operand(o: Operand) -> Option<Operand>
    ensures { result ≡ spec.pointer_operand o }
{
    match o {
        Operand::Temporary(_) => None,
        Operand::Integer(_) => None,
        Operand::Byte(_) => None,
        Operand::Constant(_) => None,
        Operand::Null => Some(Operand::Null),
        Operand::Local(i) => Some(Operand::Local(i)),
        Operand::Data(i) => Some(Operand::Data(i)),
    }
}

/// The operand as a value of the type, where that takes no instruction.
pub fn converted(s: Scalar, o: Operand) -> Option<Operand>
    ensures { result ≡ spec.converted s o }
{
    match s {
        Scalar::Char => byte_operand(o),
        Scalar::Int => integer_operand(o),
        Scalar::Unsigned => integer_operand(o),
        Scalar::Pointer => pointer_operand(o),
    }
}

/// Whether the operand differs from 0, where that is known (C11 6.8.4.1p2).
pub fn truth_of(o: Operand) -> Option<bool>
    ensures { result ≡ spec.truth_of o }
{
    match o {
        Operand::Constant(n) => Some(!(n == 0)),
        Operand::Null => Some(false),
        Operand::Temporary(_) => None,
        Operand::Integer(_) => None,
        Operand::Byte(_) => None,
        Operand::Local(_) => None,
        Operand::Data(_) => None,
    }
}

/// The number 1 or 0.
pub fn truth_operand(b: bool) -> Operand
    ensures { result ≡ spec.truth_operand b }
{
    if b {
        Operand::Constant(1)
    } else {
        Operand::Constant(0)
    }
}

// ---- operations on constants

fn on_constant(n: Option<u32>) -> Option<Operand>
    ensures { result ≡ spec.constant_of n }
{
    Some(Operand::Constant(n?))
}

fn minus(o: Operand) -> Option<Operand>
    ensures { result ≡ spec.on_constant integers.minus o }
{
    Some(Operand::Constant(sub32(0, constant(o)?)))
}

fn complement(o: Operand) -> Option<Operand>
    ensures { result ≡ spec.on_constant integers.complement o }
{
    Some(Operand::Constant(constant(o)? ^ u32::MAX))
}

fn opposite_truth(o: Operand) -> Option<Operand>
    ensures { result ≡ spec.unary_of UnaryOperation.Not o }
{
    Some(truth_operand(!truth_of(o)?))
}

fn known_truth(o: Operand) -> Option<Operand>
    ensures { result ≡ spec.unary_of UnaryOperation.Truth o }
{
    Some(truth_operand(truth_of(o)?))
}

/// The result of the operation, where it is an operand (C11 6.5.3.3).
fn unary_of(op: UnaryOperation, o: Operand) -> Option<Operand>
    ensures { result ≡ spec.unary_of op o }
{
    match op {
        UnaryOperation::Plus(_) => integer_operand(o),
        UnaryOperation::Minus(_) => minus(o),
        UnaryOperation::Complement(_) => complement(o),
        UnaryOperation::Not => opposite_truth(o),
        UnaryOperation::Truth => known_truth(o),
    }
}

fn overflows(s: Signedness, x: u32, y: u32) -> bool
    ensures { result ≡ integers.overflows s x y }
{
    match s {
        Signedness::Signed => x == 0x8000_0000 && y == 0xffff_ffff,
        Signedness::Unsigned => false,
    }
}

fn divides(s: Signedness, x: u32, y: u32) -> bool
    ensures { result ≡ integers.divides s x y }
{
    !(y == 0) && !overflows(s, x, y)
}

fn quotient(s: Signedness, x: u32, y: u32) -> u32
    ensures { result ≡ integers.quotient s x y }
{
    match s {
        Signedness::Signed => divs32(x, y),
        Signedness::Unsigned => divu32(x, y),
    }
}

fn remainder(s: Signedness, x: u32, y: u32) -> u32
    ensures { result ≡ integers.remainder s x y }
{
    match s {
        Signedness::Signed => rems32(x, y),
        Signedness::Unsigned => remu32(x, y),
    }
}

fn shifted_right(s: Signedness, x: u32, y: u32) -> u32
    ensures { result ≡ integers.shifted_right s x y }
{
    match s {
        Signedness::Signed => sra32(x, y),
        Signedness::Unsigned => srl32(x, y),
    }
}

/// The operation on two integers, where it is defined (C11 6.5.5 to 6.5.12).
fn calculate(op: Arithmetic, s: Signedness, x: u32, y: u32) -> Option<u32>
    ensures { result ≡ integers.calculate op s x y }
{
    match op {
        Arithmetic::Add => Some(add32(x, y)),
        Arithmetic::Subtract => Some(sub32(x, y)),
        Arithmetic::Multiply => Some(mul32(x, y)),
        Arithmetic::Divide => {
            if divides(s, x, y) {
                Some(quotient(s, x, y))
            } else {
                None
            }
        }
        Arithmetic::Remainder => {
            if divides(s, x, y) {
                Some(remainder(s, x, y))
            } else {
                None
            }
        }
        Arithmetic::ShiftLeft => { if y < 32 { Some(sll32(x, y)) } else { None } }
        Arithmetic::ShiftRight => {
            if y < 32 {
                Some(shifted_right(s, x, y))
            } else {
                None
            }
        }
        Arithmetic::And => Some(x & y),
        Arithmetic::Or => Some(x | y),
        Arithmetic::Xor => Some(x ^ y),
    }
}

fn is_less(s: Signedness, x: u32, y: u32) -> bool
    ensures { result ≡ integers.is_less s x y }
{
    match s {
        Signedness::Signed => x.cast_signed() < y.cast_signed(),
        Signedness::Unsigned => x < y,
    }
}

fn compares(op: Comparison, s: Signedness, x: u32, y: u32) -> bool
    ensures { result ≡ integers.compares op s x y }
{
    match op {
        Comparison::Less => is_less(s, x, y),
        Comparison::LessOrEqual => !is_less(s, y, x),
        Comparison::Greater => is_less(s, y, x),
        Comparison::GreaterOrEqual => !is_less(s, x, y),
        Comparison::Equal => x == y,
        Comparison::NotEqual => !(x == y),
    }
}

fn binary_of(op: BinaryOperation, m: u32, n: u32) -> Option<Operand>
    ensures { result ≡ spec.binary_of op m n }
{
    match op {
        BinaryOperation::Arithmetic(op, s) => on_constant(calculate(op, s, m, n)),
        BinaryOperation::Compare(op, s) => Some(truth_operand(compares(op, s, m, n))),
        BinaryOperation::Move(_, _, _) => None,
        BinaryOperation::Difference(_) => None,
        BinaryOperation::ComparePointers(_) => None,
    }
}

/// The result of the operation, where both operands are constants and it is defined (C11 6.6).
pub fn folded(op: BinaryOperation, a: Option<Operand>, b: Option<Operand>) -> Option<Operand>
    ensures { result ≡ spec.folded op a b }
{
    let o = a?;
    let p = b?;
    binary_of(op, constant(o)?, constant(p)?)
}

/// The result of the operation on an operand, where there is one and it is an operand.
pub fn unary_of_option(op: UnaryOperation, o: Option<Operand>) -> Option<Operand>
    ensures { result ≡ spec.unary_of_option op o }
{
    unary_of(op, o?)
}

/// An operand as a value of the type, where there is one and that takes no instruction.
pub fn converted_option(s: Scalar, o: Option<Operand>) -> Option<Operand>
    ensures { result ≡ spec.converted_option s o }
{
    converted(s, o?)
}

/// The start of the block.
pub fn block_operand(b: BlockId) -> Operand
    ensures { result ≡ spec.block_operand b }
{
    match b {
        BlockId::Local(i) => Operand::Local(i),
        BlockId::Data(i) => Operand::Data(i),
    }
}

// ---- address arithmetic with constants

fn is_upward(s: Signedness, n: u32) -> bool
    ensures { result ≡ spec.is_upward s n }
{
    match s {
        Signedness::Signed => n < 0x8000_0000,
        Signedness::Unsigned => true,
    }
}

fn bytes_of(s: Signedness, n: u32, element: u32) -> Option<u32>
    ensures { result ≡ spec.bytes_of s n element }
{
    if is_upward(s, n) {
        n.checked_mul(element)
    } else {
        None
    }
}

fn upward_step(s: Signedness, element: u32, right: Option<Operand>) -> Option<u32>
    ensures { result ≡ spec.upward_step s element right }
{
    bytes_of(s, constant(right?)?, element)
}

/// The bytes by which the operation moves its left operand up, where these are a constant.
pub fn constant_step(op: BinaryOperation, right: Option<Operand>) -> Option<u32>
    ensures { result ≡ spec.constant_step op right }
{
    match op {
        BinaryOperation::Arithmetic(_, _) => None,
        BinaryOperation::Compare(_, _) => None,
        BinaryOperation::Move(Direction::Up, s, element) => upward_step(s, element, right),
        BinaryOperation::Move(Direction::Down, _, _) => None,
        BinaryOperation::Difference(_) => None,
        BinaryOperation::ComparePointers(_) => None,
    }
}

// ---- constants stand on the right, where an instruction takes them

fn arithmetic_commutes(op: Arithmetic) -> bool
    ensures { (s : Signedness) → result ≡ spec.commutes (BinaryOperation.Arithmetic op s) }
{
    match op {
        Arithmetic::Add => true,
        Arithmetic::Subtract => false,
        Arithmetic::Multiply => true,
        Arithmetic::Divide => false,
        Arithmetic::Remainder => false,
        Arithmetic::ShiftLeft => false,
        Arithmetic::ShiftRight => false,
        Arithmetic::And => true,
        Arithmetic::Or => true,
        Arithmetic::Xor => true,
    }
}

fn commutes(op: BinaryOperation) -> bool
    ensures { result ≡ spec.commutes op }
{
    match op {
        BinaryOperation::Arithmetic(op, _) => arithmetic_commutes(op),
        BinaryOperation::Compare(_, _) => false,
        BinaryOperation::Move(_, _, _) => false,
        BinaryOperation::Difference(_) => false,
        BinaryOperation::ComparePointers(_) => false,
    }
}

/// Whether the operands change places, so that a constant stands on the right.
pub fn swaps(op: BinaryOperation, left: Operand) -> bool
    ensures { result ≡ spec.swaps op left }
{
    commutes(op) && is_constant(left)
}
