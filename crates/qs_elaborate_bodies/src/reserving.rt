// An operand whose temporary is reserved until it is known whether a later operand acts.
ghost use Rattle.std.specs.Prelude.{◌≡◌, IfOk, OnOk};
ghost use Rattle.qs_core.specs.TreeOf.{core_expr, core_stmts};
ghost use Rattle.qs_elaborate_bodies.specs.CoreOf.{reservation, with_room, with_reserved, settled_at};
ghost use Rattle.qs_elaborate_bodies.specs.CoreOf.{settled};
ghost use Rattle.qs_elaborate_bodies.specs.Results.{Leaves};

use crate::literals::is_literal;
use crate::parts::{keep, new_temporary, push, temporary};
use qs_base::NoMemory;
use qs_core::{CoreExpr, CoreStmt, type_of};
use qs_memory::Scalar;

/// A temporary, and the statement that will give it a value.
#[derive(Clone, Copy)]
pub struct Reserved {
    /// the place of the statement
    pub place: usize,
    /// the number of the temporary
    pub temporary: u32,
}

/// Reserves a temporary for this value, unless it is a literal.
pub fn reserve(
    out: &mut Vec<CoreStmt>,
    ts: &mut Vec<Scalar>,
    v: &CoreExpr,
) -> Result<Option<Reserved>, NoMemory>
    ensures reserved { IfOk result (λ r. r ≡ reservation v.now out.old ts.old) }
    ensures statements { OnOk result (core_stmts out.new.items ≡ with_room v.now out.old) }
    ensures temporaries { Leaves (with_reserved v.now ts.old) ts.new result }
{
    if is_literal(v) {
        return Ok(None);
    }
    let place = out.len();
    let temporary = new_temporary(ts, type_of(v))?;
    push(out, CoreStmt::Skip)?;
    Ok(Some(Reserved { place, temporary }))
}

fn settle_at(out: &mut Vec<CoreStmt>, ts: &mut Vec<Scalar>, r: Reserved, v: CoreExpr) -> CoreExpr
    ensures statements { core_stmts out.new.items ≡ (settled_at r v out.old ts.old).statements }
    ensures value { core_expr result ≡ (settled_at r v out.old ts.old).value }
    ensures temporaries { ts.new.items ≡ (settled_at r v out.old ts.old).temporaries }
{
    if out.len().saturating_sub(r.place) <= 1 {
        out.truncate(r.place);
        ts.truncate(r.temporary as usize);
        return v;
    }
    let s = type_of(&v);
    out[r.place] = keep(r.temporary, v);
    temporary(s, r.temporary)
}

/// What was reserved is used where statements follow, and taken away where none does.
pub fn settle(
    out: &mut Vec<CoreStmt>,
    ts: &mut Vec<Scalar>,
    reserved: Option<Reserved>,
    v: CoreExpr,
) -> CoreExpr
    ensures statements { core_stmts out.new.items ≡ (settled reserved v out.old ts.old).statements }
    ensures value { core_expr result ≡ (settled reserved v out.old ts.old).value }
    ensures temporaries { ts.new.items ≡ (settled reserved v out.old ts.old).temporaries }
{
    match reserved {
        None => v,
        Some(r) => settle_at(out, ts, r, v),
    }
}
