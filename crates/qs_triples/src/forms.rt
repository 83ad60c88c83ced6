// The forms of statements that rules ask for.
ghost use Rattle.qs_triples.specs.Forms.{TellsForm, TellsCallee, IsSequenceOf, IsNoSequence};
ghost use Rattle.qs_triples.specs.Forms.{IsBranchOf, IsNoBranch, IsLoopOf, IsNoLoop};
ghost use Rattle.qs_triples.specs.Forms.{IsSwitchOf, IsNoSwitch};
ghost use Rattle.qs_triples.specs.Forms.{IsCallOf, IsNoCall};

use qs_base::FnId;
use qs_calls::Callee;
use qs_core::{CoreExpr, CoreLabel, CoreStmt};

/// A conditional.
#[derive(Clone, Copy)]
pub struct Branches<'a> {
    /// its condition
    pub condition: &'a CoreExpr,
    /// where that isn't 0
    pub first: &'a CoreStmt,
    /// where it is 0
    pub second: &'a CoreStmt,
}

/// A loop.
#[derive(Clone, Copy)]
pub struct Turns<'a> {
    /// its body
    pub body: &'a CoreStmt,
    /// its step
    pub step: &'a CoreStmt,
}

/// A switch.
#[derive(Clone, Copy)]
pub struct Cases<'a> {
    /// its operand
    pub operand: &'a CoreExpr,
    /// its labels
    pub labels: &'a [CoreLabel],
    /// its parts
    pub parts: &'a [CoreStmt],
}

/// A call of a function with a body.
#[derive(Clone, Copy)]
pub struct Site<'a> {
    /// where its result goes
    pub destination: Option<u32>,
    /// the function
    pub function: FnId,
    /// its arguments
    pub arguments: &'a [CoreExpr],
}

/// The branches of a conditional.
pub fn branches_of<'a>(s: &'a CoreStmt) -> Option<Branches<'a>>
    ensures { TellsForm result IsNoBranch IsBranchOf s.now }
{
    match s {
        CoreStmt::If(condition, first, second) => Some(Branches {
            condition,
            first,
            second,
        }),
        CoreStmt::Skip => None,
        CoreStmt::Seq(_) => None,
        CoreStmt::Assign(_, _) => None,
        CoreStmt::Store(_, _, _) => None,
        CoreStmt::Copy { .. } => None,
        CoreStmt::Fill(_, _) => None,
        CoreStmt::Call(_, _, _) => None,
        CoreStmt::Loop(_, _) => None,
        CoreStmt::Switch(_, _, _) => None,
        CoreStmt::Break => None,
        CoreStmt::Continue => None,
        CoreStmt::Return(_) => None,
    }
}

/// The body and the step of a loop.
pub fn turns_of<'a>(s: &'a CoreStmt) -> Option<Turns<'a>>
    ensures { TellsForm result IsNoLoop IsLoopOf s.now }
{
    match s {
        CoreStmt::Loop(body, step) => Some(Turns { body, step }),
        CoreStmt::Skip => None,
        CoreStmt::Seq(_) => None,
        CoreStmt::Assign(_, _) => None,
        CoreStmt::Store(_, _, _) => None,
        CoreStmt::Copy { .. } => None,
        CoreStmt::Fill(_, _) => None,
        CoreStmt::Call(_, _, _) => None,
        CoreStmt::If(_, _, _) => None,
        CoreStmt::Switch(_, _, _) => None,
        CoreStmt::Break => None,
        CoreStmt::Continue => None,
        CoreStmt::Return(_) => None,
    }
}

/// A switch.
pub fn cases_of<'a>(s: &'a CoreStmt) -> Option<Cases<'a>>
    ensures { TellsForm result IsNoSwitch IsSwitchOf s.now }
{
    match s {
        CoreStmt::Switch(operand, labels, parts) => Some(Cases {
            operand,
            labels,
            parts,
        }),
        CoreStmt::Skip => None,
        CoreStmt::Seq(_) => None,
        CoreStmt::Assign(_, _) => None,
        CoreStmt::Store(_, _, _) => None,
        CoreStmt::Copy { .. } => None,
        CoreStmt::Fill(_, _) => None,
        CoreStmt::Call(_, _, _) => None,
        CoreStmt::If(_, _, _) => None,
        CoreStmt::Loop(_, _) => None,
        CoreStmt::Break => None,
        CoreStmt::Continue => None,
        CoreStmt::Return(_) => None,
    }
}

/// The parts of a sequence.
pub fn parts_of<'a>(s: &'a CoreStmt) -> Option<&'a [CoreStmt]>
    ensures { TellsForm result IsNoSequence (λ ss. IsSequenceOf ss.now) s.now }
{
    match s {
        CoreStmt::Seq(parts) => Some(parts),
        CoreStmt::Skip => None,
        CoreStmt::Assign(_, _) => None,
        CoreStmt::Store(_, _, _) => None,
        CoreStmt::Copy { .. } => None,
        CoreStmt::Fill(_, _) => None,
        CoreStmt::Call(_, _, _) => None,
        CoreStmt::If(_, _, _) => None,
        CoreStmt::Loop(_, _) => None,
        CoreStmt::Switch(_, _, _) => None,
        CoreStmt::Break => None,
        CoreStmt::Continue => None,
        CoreStmt::Return(_) => None,
    }
}

fn callee_of<'a>(destination: Option<u32>, g: Callee, arguments: &'a [CoreExpr]) -> Option<Site<'a>>
    ensures { TellsCallee destination g arguments.now result }
{
    match g {
        Callee::Function(function) => Some(Site {
            destination,
            function,
            arguments,
        }),
        Callee::PutChar => None,
        Callee::GetChar => None,
    }
}

/// A call of a function with a body.
pub fn site_of<'a>(s: &'a CoreStmt) -> Option<Site<'a>>
    ensures { TellsForm result IsNoCall IsCallOf s.now }
{
    match s {
        CoreStmt::Call(destination, g, arguments) => callee_of(*destination, *g, arguments),
        CoreStmt::Skip => None,
        CoreStmt::Seq(_) => None,
        CoreStmt::Assign(_, _) => None,
        CoreStmt::Store(_, _, _) => None,
        CoreStmt::Copy { .. } => None,
        CoreStmt::Fill(_, _) => None,
        CoreStmt::If(_, _, _) => None,
        CoreStmt::Loop(_, _) => None,
        CoreStmt::Switch(_, _, _) => None,
        CoreStmt::Break => None,
        CoreStmt::Continue => None,
        CoreStmt::Return(_) => None,
    }
}
