// How many temporaries the code of a statement takes besides those of the function.
ghost use Rattle.std.specs.Prelude.{◌≡◌, IfOk};
ghost use Rattle.qs_lower_expressions.specs.Expressions as spec;
ghost use Rattle.qs_lower_expressions.specs.Plans.{expr_codes};
ghost use Rattle.qs_lower.specs.StmtPlans.{stmt_part, most_used, stmt_parts};

use crate::stmt_plans::StmtPlan;
use qs_base::{NoMemory, sum};
use qs_lower_expressions::{ExprPlan, base_own, base_used, own, test_used, used, used_by};

// For all of them, one behind the other.
fn all_used(es: &[ExprPlan]) -> Result<u32, NoMemory>
    ensures { IfOk result (λ n. n ≡ spec.all_used (expr_codes es.now)) }
{
    match es {
        [] => Ok(0),
        [e, rest @ ..] => {
            let behind = sum(own(e), all_used(rest)?)?;
            Ok(used_by(e)?.max(behind))
        }
    }
}

/// Those that the code of a statement uses.
#[cycle(stmt_used)]
pub fn stmt_used(s: &StmtPlan) -> Result<u32, NoMemory>
    ensures { IfOk result (λ n. n ≡ (stmt_part s.now).used) }
{
    match s {
        StmtPlan::Go(_) => Ok(0),
        StmtPlan::Assign(_, _, e) => used(e),
        StmtPlan::Store(_, _, p, e) => {
            let behind = sum(base_own(p)?, used_by(e)?)?;
            Ok(base_used(p)?.max(behind))
        }
        StmtPlan::Copy { to: p, from: q, .. } => {
            let behind = sum(base_own(p)?, base_used(q)?)?;
            Ok(base_used(p)?.max(behind))
        }
        StmtPlan::Fill(_, _, p) => base_used(p),
        StmtPlan::Call(_, _, _, es) => all_used(es),
        StmtPlan::Return(_, e) => used_by(e),
        StmtPlan::PlainReturn => Ok(0),
        StmtPlan::Joined(all, last) => Ok(most_used(all)?.max(stmt_used(last)?)),
        StmtPlan::Redirected(a, _) => stmt_used(a),
        StmtPlan::Branch(p) => {
            let parts = stmt_used(&p.met)?.max(stmt_used(&p.unmet)?);
            Ok(test_used(&p.test)?.max(parts))
        }
        StmtPlan::Loop(p) => Ok(stmt_used(&p.body)?.max(stmt_used(&p.step)?)),
        StmtPlan::TestedLoop(p) => Ok(p.used),
        StmtPlan::Switch(p) => {
            let parts = most_used(&p.parts)?.max(stmt_used(&p.last)?);
            Ok(used_by(&p.operand)?.max(parts))
        }
    }
}

// The most that one of them uses.
#[cycle(stmt_used)]
fn most_used(ss: &[StmtPlan]) -> Result<u32, NoMemory>
    ensures { IfOk result (λ n. n ≡ most_used (stmt_parts ss.now)) }
{
    let mut most = 0;
    for s in ss {
        most = stmt_used(s)?.max(most);
    }
    Ok(most)
}
