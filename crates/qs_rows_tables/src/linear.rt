// Linear code as text.
use qs_base::{FnId, NoMemory};
use qs_calls::{Callee, Parameter};
use qs_core::CoreUnit;
use qs_memory::{BinaryOperation, Blank, Direction};
use qs_tac::{
    Address, Condition, Index, Instruction, Operand, Place, Places, TacData, TacFunction, TacUnit,
};
use std::alloc::{AllocError, Global};

// ---- what instructions take

fn operand(alloc: Global, o: Operand) -> Result<String, AllocError> {
    match o {
        Operand::Temporary(t) => format!(in alloc; "t{t}"),
        Operand::Integer(t) => format!(in alloc; "integer t{t}"),
        Operand::Byte(t) => format!(in alloc; "byte t{t}"),
        Operand::Constant(n) => format!(in alloc; "{n}"),
        Operand::Null => format!(in alloc; "null"),
        Operand::Local(b) => format!(in alloc; "local {b}"),
        Operand::Data(b) => format!(in alloc; "data {b}"),
    }
}

fn operands(alloc: Global, all: &[Operand]) -> Result<String, AllocError> {
    let mut text = String::new(alloc);
    for o in all {
        let o = operand(alloc, *o)?;
        text.push_str(" ")?;
        text.push_str(o.as_str())?;
    }
    Ok(text)
}

fn offset(alloc: Global, n: Option<u32>) -> Result<String, AllocError> {
    match n {
        None => Ok(String::new(alloc)),
        Some(n) => format!(in alloc; " + {n}"),
    }
}

fn index(alloc: Global, i: Index) -> Result<String, AllocError> {
    let count = operand(alloc, i.count)?;
    let (signedness, element) = (i.signedness, i.element);
    let member = offset(alloc, i.offset)?;
    format!(in alloc; " + {count} {signedness:?} * {element}{member}")
}

// An address: the pointer, the offset of a member where one is taken, and the element where there
// is one.
fn address(alloc: Global, p: Address) -> Result<String, AllocError> {
    let base = operand(alloc, p.base)?;
    let member = offset(alloc, p.offset)?;
    let element = match p.index {
        None => String::new(alloc),
        Some(i) => index(alloc, i)?,
    };
    format!(in alloc; "[{base}{member}{element}]")
}

fn condition(alloc: Global, c: Condition) -> Result<String, AllocError> {
    match c {
        Condition::NotZero(o) => operand(alloc, o),
        Condition::Zero(o) => {
            let o = operand(alloc, o)?;
            format!(in alloc; "Not {o}")
        }
        Condition::Compare(op, s, a, b) => {
            let (a, b) = (operand(alloc, a)?, operand(alloc, b)?);
            format!(in alloc; "{a} {op:?} {s:?} {b}")
        }
        Condition::ComparePointers(op, a, b) => {
            let (a, b) = (operand(alloc, a)?, operand(alloc, b)?);
            format!(in alloc; "{a} {op:?} {b}")
        }
    }
}

fn moved(alloc: Global, d: Direction) -> Result<String, AllocError> {
    match d {
        Direction::Up => format!(in alloc; "+"),
        Direction::Down => format!(in alloc; "-"),
    }
}

// An operation on two values. Those on pointers name no type of integers but that of the count.
fn binary(
    alloc: Global,
    op: BinaryOperation,
    a: Operand,
    b: Operand,
) -> Result<String, AllocError> {
    let (a, b) = (operand(alloc, a)?, operand(alloc, b)?);
    match op {
        BinaryOperation::Arithmetic(op, s) => format!(in alloc; "{a} {op:?} {s:?} {b}"),
        BinaryOperation::Compare(op, s) => format!(in alloc; "{a} {op:?} {s:?} {b}"),
        BinaryOperation::Move(d, s, element) => {
            let sign = moved(alloc, d)?;
            format!(in alloc; "{a} {sign} {b} {s:?} * {element}")
        }
        BinaryOperation::Difference(element) => {
            format!(in alloc; "{a} Difference {b} / {element}")
        }
        BinaryOperation::ComparePointers(op) => format!(in alloc; "{a} {op:?} {b}"),
    }
}

// What an object is filled with.
#[cycle(blank)]
fn blank(alloc: Global, b: &Blank) -> Result<String, AllocError> {
    match b {
        Blank::Zeros(n) => format!(in alloc; "zeros {n}"),
        Blank::Nulls(n) => format!(in alloc; "nulls {n}"),
        Blank::Repeated(n, part) => {
            let part = blank(alloc, part)?;
            format!(in alloc; "{n} * ({part})")
        }
        Blank::Joined(parts) => blanks(alloc, parts),
    }
}

// Blanks, one behind the other.
#[cycle(blank)]
fn blanks(alloc: Global, parts: &[Blank]) -> Result<String, AllocError> {
    let mut text = String::new(alloc);
    for part in parts {
        if !text.is_empty() {
            text.push_str(", ")?;
        }
        let part = blank(alloc, part)?;
        text.push_str(part.as_str())?;
    }
    Ok(text)
}

// ---- instructions

// A function by its name; a function that isn't there, which no unit calls, has none.
fn name_of(alloc: Global, core: &CoreUnit, f: FnId) -> Result<String, AllocError> {
    match core.functions.get(f.0 as usize) {
        Some(function) => format!(in alloc; "{}", function.name.bytes().escape_ascii()),
        None => Ok(String::new(alloc)),
    }
}

fn callee(alloc: Global, core: &CoreUnit, f: Callee) -> Result<String, AllocError> {
    match f {
        Callee::Function(f) => name_of(alloc, core, f),
        Callee::PutChar => format!(in alloc; "putchar"),
        Callee::GetChar => format!(in alloc; "getchar"),
    }
}

fn call(
    alloc: Global,
    core: &CoreUnit,
    to: Option<u32>,
    f: Callee,
    all: &[Operand],
) -> Result<String, AllocError> {
    let name = callee(alloc, core, f)?;
    let all = operands(alloc, all)?;
    match to {
        None => format!(in alloc; "call {name}{all}"),
        Some(t) => format!(in alloc; "t{t} = call {name}{all}"),
    }
}

// An instruction that computes a value.
fn value(alloc: Global, i: &Instruction) -> Result<String, AllocError> {
    match i {
        Instruction::Move(t, o) => {
            let o = operand(alloc, *o)?;
            format!(in alloc; "t{t} = {o}")
        }
        Instruction::Unary(op, t, o) => {
            let o = operand(alloc, *o)?;
            format!(in alloc; "t{t} = {op:?} {o}")
        }
        Instruction::Binary(op, t, a, b) => {
            let result = binary(alloc, *op, *a, *b)?;
            format!(in alloc; "t{t} = {result}")
        }
        Instruction::Convert(s, t, o) => {
            let o = operand(alloc, *o)?;
            format!(in alloc; "t{t} = {s:?} {o}")
        }
        Instruction::AddressOf(t, p) => {
            let p = address(alloc, *p)?;
            format!(in alloc; "t{t} = &{p}")
        }
        _ => access(alloc, i),
    }
}

// An instruction that reads or writes memory.
fn access(alloc: Global, i: &Instruction) -> Result<String, AllocError> {
    match i {
        Instruction::Load(s, t, p) => {
            let p = address(alloc, *p)?;
            format!(in alloc; "t{t} = {s:?} {p}")
        }
        Instruction::Store(s, p, o) => {
            let (p, o) = (address(alloc, *p)?, operand(alloc, *o)?);
            format!(in alloc; "{s:?} {p} = {o}")
        }
        Instruction::Copy {
            size,
            alignment,
            to,
            from,
        } => {
            let (to, from) = (address(alloc, *to)?, address(alloc, *from)?);
            format!(in alloc; "copy {size} by {alignment} {to} = {from}")
        }
        Instruction::Fill(with, p) => {
            let (with, p) = (blank(alloc, with)?, address(alloc, *p)?);
            format!(in alloc; "fill {p} = {with}")
        }
        _ => Ok(String::new(alloc)),
    }
}

fn instruction(alloc: Global, core: &CoreUnit, i: &Instruction) -> Result<String, AllocError> {
    match i {
        Instruction::Call(to, f, all) => call(alloc, core, *to, *f, all),
        Instruction::Jump(to) => format!(in alloc; "jump {to}"),
        Instruction::Branch(c, to) => {
            let c = condition(alloc, *c)?;
            format!(in alloc; "if {c} jump {to}")
        }
        Instruction::Return(None) => format!(in alloc; "return"),
        Instruction::Return(Some(o)) => {
            let o = operand(alloc, *o)?;
            format!(in alloc; "return {o}")
        }
        _ => value(alloc, i),
    }
}

// ---- functions

fn parameter(alloc: Global, p: Parameter) -> Result<String, AllocError> {
    match p {
        Parameter::Plain(t) => format!(in alloc; " t{t}"),
        Parameter::Placed(b, s) => format!(in alloc; " {s:?} local {b}"),
    }
}

// The first line of a function: its name, where its arguments go, how many temporaries it has, and
// the sizes of its blocks.
fn head(alloc: Global, name: &str, f: &TacFunction) -> Result<String, AllocError> {
    let mut text = format!(in alloc; "function {name}")?;
    for p in &f.parameters {
        let p = parameter(alloc, *p)?;
        text.push_str(p.as_str())?;
    }
    let temporaries = format!(in alloc; " of {}", f.temporaries)?;
    text.push_str(temporaries.as_str())?;
    for size in &f.blocks {
        let size = format!(in alloc; " block {size}")?;
        text.push_str(size.as_str())?;
    }
    text.push_str("\n")?;
    Ok(text)
}

// A line for each instruction, behind its index.
fn body(
    alloc: Global,
    core: &CoreUnit,
    text: &mut String,
    f: &TacFunction,
) -> Result<(), AllocError> {
    for (number, i) in f.code.iter().enumerate() {
        let i = instruction(alloc, core, i)?;
        let line = format!(in alloc; "{number} {i}\n")?;
        text.push_str(line.as_str())?;
    }
    Ok(())
}

// A line for each block of data: its size.
fn data(alloc: Global, blocks: &[TacData]) -> Result<String, AllocError> {
    let mut text = String::new(alloc);
    for block in blocks {
        let kind = if block.is_writable { "data" } else { "text" };
        let line = format!(in alloc; "{kind} {}\n", block.size)?;
        text.push_str(line.as_str())?;
    }
    Ok(text)
}

// ---- places

fn place(alloc: Global, p: Place) -> Result<String, AllocError> {
    match p {
        Place::Slot(k) => format!(in alloc; " slot {k}"),
        Place::Register(r) => format!(in alloc; " x{r}"),
    }
}

// The line of a function: its name, and the places of its temporaries by their numbers.
fn places_line(alloc: Global, name: &str, places: &Places) -> Result<String, AllocError> {
    let mut text = format!(in alloc; "places {name}")?;
    for p in &places.at {
        let p = place(alloc, *p)?;
        text.push_str(p.as_str())?;
    }
    text.push_str("\n")?;
    Ok(text)
}

// ---- units

/// The places of the temporaries of each function as text, with the names that the core has.
pub fn places_text(alloc: Global, core: &CoreUnit, all: &[Places]) -> Result<String, NoMemory> {
    let mut text = String::new(alloc);
    for (from, places) in core.functions.iter().zip(all) {
        let name = format!(in alloc; "{}", from.name.bytes().escape_ascii())?;
        let line = places_line(alloc, name.as_str(), places)?;
        text.push_str(line.as_str())?;
    }
    Ok(text)
}

/// The linear code of a unit as text, with the names that its core has.
pub fn linear_text(alloc: Global, core: &CoreUnit, unit: &TacUnit) -> Result<String, NoMemory> {
    let mut text = data(alloc, &unit.data_blocks)?;
    for (from, f) in core.functions.iter().zip(&unit.functions) {
        let name = format!(in alloc; "{}", from.name.bytes().escape_ascii())?;
        let first = head(alloc, name.as_str(), f)?;
        text.push_str(first.as_str())?;
        body(alloc, core, &mut text, f)?;
    }
    Ok(text)
}
