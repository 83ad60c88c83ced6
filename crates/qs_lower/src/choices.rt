// The code that chooses the part of a switch.
ghost use Rattle.std.specs.Prelude.{[], ◌∷◌, ◌≡◌, ◌==◌, IfOk, OnOk};
ghost use Rattle.qs_tac.specs.TreeOf.{instruction_tree};
ghost use Rattle.qs_lower_expressions.specs.Plans.{Emits, EmitsAt, Grows, expr_code};
ghost use Rattle.qs_lower.specs.Choices as spec;

use qs_base::{NoMemory, sum};
use qs_core::CoreLabel;
use qs_lower_expressions::{ExprPlan, emit_operand, operand_of, put, size_of};
use qs_memory::{Comparison, Signedness};
use qs_tac::{Condition, Instruction, Operand};

// ---- sizes

fn label_count(label: CoreLabel) -> u32
    ensures { result ≡ spec.label_count label }
{
    match label {
        CoreLabel::Case { .. } => 1,
        CoreLabel::Default { .. } => 0,
    }
}

/// How many of the labels are cases.
#[tactic(auto, using(crate::proofs::ChoiceLaws::count_at))]
fn case_count(labels: &[CoreLabel]) -> Result<u32, NoMemory>
    ensures { IfOk result (λ n. n ≡ spec.case_count labels.now) }
{
    let mut count = 0;
    for label in labels {
        count = sum(count, label_count(*label))?;
    }
    Ok(count)
}

fn asked_size(is_asked: bool) -> u32
    ensures { result ≡ spec.asked_size is_asked }
{
    if is_asked { 1 } else { 0 }
}

/// How many instructions choose a part.
pub fn choice_size(e: &ExprPlan, labels: &[CoreLabel]) -> Result<u32, NoMemory>
    ensures { IfOk result (λ n. n ≡ spec.choice_size (expr_code e.now) labels.now) }
{
    let cases = case_count(labels)?;
    let jumps = sum(asked_size(cases == 0), 1)?;
    sum(size_of(e)?, sum(cases, jumps)?)
}

// ---- places

/// Where jumps to a part go.
fn place_in(places: &[u32], part: u32) -> u32
    ensures { result ≡ spec.place_in places.now part }
{
    match places.get(part as usize) {
        Some(place) => *place,
        None => 0,
    }
}

/// Where it goes on that has the value of no case.
pub fn other_place(part: Option<u32>, places: &[u32], behind: u32) -> u32
    ensures { result ≡ spec.other_place part places.now behind }
{
    match part {
        None => behind,
        Some(part) => place_in(places, part),
    }
}

// ---- code

fn if_equal(o: Operand, value: u32, to: u32) -> Instruction
    ensures { instruction_tree result ≡ spec.if_equal o value to }
{
    let number = Operand::Constant(value);
    Instruction::Branch(
        Condition::Compare(Comparison::Equal, Signedness::Signed, o, number),
        to,
    )
}

fn emit_label(
    code: &mut Vec<Instruction>,
    o: Operand,
    label: CoreLabel,
    places: &[u32],
) -> Result<(), NoMemory>
    ensures code { OnOk result (Emits code.old code.new (spec.label_code o label places.now)) }
    ensures size { OnOk result (Grows code.old code.new (spec.label_count label)) }
{
    match label {
        CoreLabel::Case { value, part } => put(code, if_equal(o, value, place_in(places, part))),
        CoreLabel::Default { .. } => Ok(()),
    }
}

#[tactic(auto, using(crate::proofs::ChoiceLaws::code_at, crate::proofs::ChoiceLaws::count_at))]
fn emit_labels(
    code: &mut Vec<Instruction>,
    o: Operand,
    labels: &[CoreLabel],
    places: &[u32],
) -> Result<(), NoMemory>
    ensures code { OnOk result (Emits code.old code.new (spec.case_code o labels.now places.now)) }
    ensures size { OnOk result (Grows code.old code.new (spec.case_count labels.now)) }
{
    for label in labels {
        emit_label(code, o, *label, places)?;
    }
    Ok(())
}

fn emit_asked(
    code: &mut Vec<Instruction>,
    is_asked: bool,
    o: Operand,
    to: u32,
) -> Result<(), NoMemory>
    ensures code { OnOk result (Emits code.old code.new (spec.asked_code is_asked o to)) }
    ensures size { OnOk result (Grows code.old code.new (spec.asked_size is_asked)) }
{
    if is_asked {
        put(code, if_equal(o, 0, to))
    } else {
        Ok(())
    }
}

/// Emits the operand, a branch for each case, and a jump to where it goes on that has the value of
/// none.
pub fn emit_choice(
    code: &mut Vec<Instruction>,
    t: u32,
    e: &ExprPlan,
    labels: &[CoreLabel],
    places: &[u32],
    other: u32,
) -> Result<(), NoMemory>
    ensures code { OnOk result (EmitsAt code.old code.new (spec.choice_code t (expr_code e.now) labels.now places.now other)) }
    ensures size { OnOk result (Grows code.old code.new (spec.choice_size (expr_code e.now) labels.now)) }
{
    let o = operand_of(e, t);
    let is_asked = case_count(labels)? == 0;
    emit_operand(code, e, t)?;
    emit_labels(code, o, labels, places)?;
    emit_asked(code, is_asked, o, other)?;
    put(code, Instruction::Jump(other))
}
