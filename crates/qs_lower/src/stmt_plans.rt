// What lowering decides on a statement, before its code is emitted.
ghost use Rattle.std.specs.Prelude.{◌≡◌, IfOk, IfSome, IsSome, Some};
ghost use Rattle.qs_lower.specs.StmtPlans.{stmt_part, branch_part, idle_of, some_breaks, test_in};
ghost use Rattle.qs_lower.specs.StmtPlans.{stmt_parts, test_at_end, tested_parts};
ghost use Rattle.qs_lower.specs.Ways.{option_way, way_tree};
ghost use Rattle.qs_lower.specs.Statements.{is_break, leaves};

use crate::ways::{Way, is_next};
use qs_base::NoMemory;
use qs_calls::Callee;
use qs_core::CoreLabel;
use qs_lower_expressions::ExprPlan;
use qs_memory::{Blank, Scalar};
use std::alloc::Global;

/// The plan of a statement's code. The first number of each is that of the first temporary that is
/// free.
#[cycle(stmt_plan)]
pub enum StmtPlan {
    /// only goes on
    Go(Way),
    /// gives the temporary with the second number the value
    Assign(u32, u32, ExprPlan),
    /// stores, as this type, at the address, the value
    Store(u32, Scalar, ExprPlan, ExprPlan),
    /// copies so many bytes, aligned like this, to an address from another
    Copy {
        free: u32,
        size: u32,
        alignment: u32,
        to: ExprPlan,
        from: ExprPlan,
    },
    /// fills the object at the address
    Fill(u32, Blank, ExprPlan),
    /// calls with these arguments, and puts the result into this temporary
    Call(u32, Option<u32>, Callee, Vec<ExprPlan>),
    /// ends the function, with this result
    Return(u32, ExprPlan),
    /// ends the function
    PlainReturn,
    /// these, one after the other, and then the last
    Joined(Vec<StmtPlan>, Box<StmtPlan>),
    /// one, and then only another way on
    Redirected(Box<StmtPlan>, Way),
    /// the first where the test holds, else the second
    Branch(Box<BranchPlan>),
    /// a body and a step, again and again
    Loop(Box<LoopPlan>),
    /// the same of a body that ends in a test
    TestedLoop(Box<TestedPlan>),
    /// the parts, from the one on that the operand chooses
    Switch(Box<SwitchPlan>),
}

/// The plan of a branch.
#[cycle(stmt_plan)]
pub struct BranchPlan {
    /// the first temporary that is free
    pub free: u32,
    /// the test
    pub test: ExprPlan,
    /// where it holds
    pub met: StmtPlan,
    /// where it doesn't
    pub unmet: StmtPlan,
}

/// The plan of a loop.
#[cycle(stmt_plan)]
pub struct LoopPlan {
    /// whether the step does nothing
    pub is_alone: bool,
    /// the body
    pub body: StmtPlan,
    /// the step
    pub step: StmtPlan,
}

/// The plan of a loop whose body ends in a test: where it holds a statement follows, and else a
/// break.
#[cycle(stmt_plan)]
pub struct TestedPlan {
    /// the first temporary that is free
    pub free: u32,
    /// what stands before the test
    pub front: StmtPlan,
    /// the test
    pub test: ExprPlan,
    /// what follows where it holds
    pub rest: StmtPlan,
    /// the step
    pub step: StmtPlan,
    /// how many free temporaries are used
    pub used: u32,
    /// whether the loop never comes to what is next
    pub ends: bool,
}

/// The plan of a switch.
#[cycle(stmt_plan)]
pub struct SwitchPlan {
    /// the first temporary that is free
    pub free: u32,
    /// the operand
    pub operand: ExprPlan,
    /// its labels, in order
    pub labels: Vec<CoreLabel>,
    /// its parts, but for the last
    pub parts: Vec<StmtPlan>,
    /// the last part
    pub last: StmtPlan,
}

// By hand, as the drops of core's statements.
impl Drop for StmtPlan {
    #[cycle(drop_stmt_plan)]
    fn drop(self) {
        match self {
            StmtPlan::Go(_) => {}
            StmtPlan::Assign(_, _, _) => {}
            StmtPlan::Store(_, _, _, _) => {}
            StmtPlan::Copy {
                free: _,
                size: _,
                alignment: _,
                to: _,
                from: _,
            } => {}
            StmtPlan::Fill(_, _, _) => {}
            StmtPlan::Call(_, _, _, _) => {}
            StmtPlan::Return(_, _) => {}
            StmtPlan::PlainReturn => {}
            StmtPlan::Joined(_, _) => {}
            StmtPlan::Redirected(_, _) => {}
            StmtPlan::Branch(_) => {}
            StmtPlan::Loop(_) => {}
            StmtPlan::TestedLoop(_) => {}
            StmtPlan::Switch(_) => {}
        }
    }
}

impl Drop for BranchPlan {
    #[cycle(drop_stmt_plan)]
    fn drop(self) {
        let BranchPlan {
            free: _,
            test: _,
            met: _,
            unmet: _,
        } = self;
    }
}

impl Drop for LoopPlan {
    #[cycle(drop_stmt_plan)]
    fn drop(self) {
        let LoopPlan {
            is_alone: _,
            body: _,
            step: _,
        } = self;
    }
}

impl Drop for TestedPlan {
    #[cycle(drop_stmt_plan)]
    fn drop(self) {
        let TestedPlan {
            free: _,
            front: _,
            test: _,
            rest: _,
            step: _,
            used: _,
            ends: _,
        } = self;
    }
}

impl Drop for SwitchPlan {
    #[cycle(drop_stmt_plan)]
    fn drop(self) {
        let SwitchPlan {
            free: _,
            operand: _,
            labels: _,
            parts: _,
            last: _,
        } = self;
    }
}

impl StmtPlan {
    /// Where it goes, if it does nothing else.
    pub fn way(&self) -> Option<Way>
        ensures way { option_way result ≡ (stmt_part self.now).way }
        ensures ends { IfSome result (λ w. (stmt_part self.now).ends ≡ leaves (way_tree w)) }
        ensures breaks { IfSome result (λ w. (stmt_part self.now).breaks ≡ is_break (way_tree w)) }
    {
        match self {
            StmtPlan::Go(w) => Some(*w),
            StmtPlan::Joined(all, last) => match all.as_slice() {
                [] => last.way(),
                [_, ..] => None,
            },
            StmtPlan::Redirected(_, _) => None,
            StmtPlan::Assign(_, _, _) => None,
            StmtPlan::Store(_, _, _, _) => None,
            StmtPlan::Copy { .. } => None,
            StmtPlan::Fill(_, _, _) => None,
            StmtPlan::Call(_, _, _, _) => None,
            StmtPlan::Return(_, _) => None,
            StmtPlan::PlainReturn => None,
            StmtPlan::Branch(_) => None,
            StmtPlan::Loop(_) => None,
            StmtPlan::TestedLoop(_) => None,
            StmtPlan::Switch(_) => None,
        }
    }

    /// Whether a break of the loop or switch around it can be reached.
    #[cycle(breaks)]
    pub fn breaks(&self) -> bool
        ensures { result ≡ (stmt_part self.now).breaks }
    {
        match self {
            StmtPlan::Go(w) => w.is_break(),
            StmtPlan::Redirected(a, w) => a.breaks() || w.is_break(),
            StmtPlan::Joined(all, last) => some_breaks(all) || last.breaks(),
            StmtPlan::Branch(p) => p.met.breaks() || p.unmet.breaks(),
            StmtPlan::Assign(_, _, _) => false,
            StmtPlan::Store(_, _, _, _) => false,
            StmtPlan::Copy { .. } => false,
            StmtPlan::Fill(_, _, _) => false,
            StmtPlan::Call(_, _, _, _) => false,
            StmtPlan::Return(_, _) => false,
            StmtPlan::PlainReturn => false,
            StmtPlan::Loop(_) => false,
            StmtPlan::TestedLoop(_) => false,
            StmtPlan::Switch(_) => false,
        }
    }

    /// Whether it never comes to what is next.
    pub fn ends(&self) -> bool
        ensures { result ≡ (stmt_part self.now).ends }
    {
        match self {
            StmtPlan::Go(w) => w.leaves(),
            StmtPlan::Redirected(_, w) => w.leaves(),
            StmtPlan::Joined(_, last) => last.ends(),
            StmtPlan::Branch(p) => p.met.ends() && p.unmet.ends(),
            StmtPlan::Loop(p) => !(p.body.breaks() || p.step.breaks()),
            StmtPlan::TestedLoop(p) => p.ends,
            StmtPlan::Return(_, _) => true,
            StmtPlan::PlainReturn => true,
            StmtPlan::Assign(_, _, _) => false,
            StmtPlan::Store(_, _, _, _) => false,
            StmtPlan::Copy { .. } => false,
            StmtPlan::Fill(_, _, _) => false,
            StmtPlan::Call(_, _, _, _) => false,
            StmtPlan::Switch(_) => false,
        }
    }

    /// Whether what follows does nothing, where it ends in a test whose other side is a break.
    pub fn idle(&self) -> Option<bool>
        ensures { result ≡ idle_of (stmt_part self.now) }
    {
        match self {
            StmtPlan::Joined(_, last) => last.idle(),
            StmtPlan::Branch(p) => p.idle(),
            StmtPlan::Go(_) => None,
            StmtPlan::Redirected(_, _) => None,
            StmtPlan::Assign(_, _, _) => None,
            StmtPlan::Store(_, _, _, _) => None,
            StmtPlan::Copy { .. } => None,
            StmtPlan::Fill(_, _, _) => None,
            StmtPlan::Call(_, _, _, _) => None,
            StmtPlan::Return(_, _) => None,
            StmtPlan::PlainReturn => None,
            StmtPlan::Loop(_) => None,
            StmtPlan::TestedLoop(_) => None,
            StmtPlan::Switch(_) => None,
        }
    }
}

// Of any of them.
#[cycle(breaks)]
fn some_breaks(ss: &[StmtPlan]) -> bool
    ensures { result ≡ some_breaks (stmt_parts ss.now) }
{
    for s in ss {
        if s.breaks() {
            return true;
        }
    }
    false
}

impl BranchPlan {
    fn idle(&self) -> Option<bool>
        ensures { result ≡ idle_of (branch_part self.now) }
    {
        match self.unmet.way() {
            Some(Way::Break) => Some(is_next(self.met.way())),
            Some(Way::Next) => None,
            Some(Way::Continue) => None,
            None => None,
        }
    }
}

/// A statement that ends in a test, taken apart.
#[derive(Drop)]
pub struct TestedParts {
    /// what stands before the test
    pub front: StmtPlan,
    /// the test
    pub test: ExprPlan,
    /// what follows where it holds
    pub rest: StmtPlan,
}

impl BranchPlan {
    // Where its other side is a break.
    fn into_tested(self) -> TestedParts
        requires { IsSome (test_in (branch_part self).tested) }
        ensures { test_in (branch_part self).tested ≡ Some (tested_parts result) }
    {
        match self.unmet.way() {
            Some(Way::Break) => {
                let BranchPlan {
                    free: _,
                    test,
                    met,
                    unmet: _,
                } = self;
                TestedParts {
                    front: StmtPlan::Go(Way::Next),
                    test,
                    rest: met,
                }
            }
            Some(Way::Next) => unreachable!(),
            Some(Way::Continue) => unreachable!(),
            None => unreachable!(),
        }
    }
}

impl StmtPlan {
    /// Takes it apart, where it ends in a test whose other side is a break.
    pub fn into_tested(self, alloc: Global) -> Result<TestedParts, NoMemory>
        requires { IsSome (test_at_end (stmt_part self)) }
        ensures { IfOk result (λ r. test_at_end (stmt_part self) ≡ Some (tested_parts r)) }
    {
        match self {
            StmtPlan::Joined(all, last) => {
                let TestedParts { front, test, rest } = Box::into_inner(last).into_tested(alloc)?;
                let front = StmtPlan::Joined(all, Box::new(alloc, front)?);
                Ok(TestedParts { front, test, rest })
            }
            StmtPlan::Branch(p) => Ok(Box::into_inner(p).into_tested()),
            StmtPlan::Go(_) => unreachable!(),
            StmtPlan::Redirected(_, _) => unreachable!(),
            StmtPlan::Assign(_, _, _) => unreachable!(),
            StmtPlan::Store(_, _, _, _) => unreachable!(),
            StmtPlan::Copy { .. } => unreachable!(),
            StmtPlan::Fill(_, _, _) => unreachable!(),
            StmtPlan::Call(_, _, _, _) => unreachable!(),
            StmtPlan::Return(_, _) => unreachable!(),
            StmtPlan::PlainReturn => unreachable!(),
            StmtPlan::Loop(_) => unreachable!(),
            StmtPlan::TestedLoop(_) => unreachable!(),
            StmtPlan::Switch(_) => unreachable!(),
        }
    }
}
