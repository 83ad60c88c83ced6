// What the certificates of an entry are to show. The walk over a body goes down to a statement, and
// computes what must be free behind it as the check does.
use qs_assert::{Assertion, Room};
use qs_base::FnId;
use qs_calls::Callee;
use qs_core::{CoreExpr, CoreStmt};
use qs_entail::{Certificate, Stop};
use qs_triples::{
    Derivation, Failure, FunctionProof, Posts, Replacement, Scope, body_posts, body_pre, entry_in,
    pre, replaced, step_posts, with_frame_behind, with_next,
};
use std::alloc::Global;

/// Where a certificate stands.
#[derive(Clone, Copy, Drop)]
pub enum Owner {
    Entry,
    Loop,
    Call,
    Use,
}

/// What a certificate is to show: that what is there is at least what is needed.
#[derive(Drop)]
pub struct Goal<'a> {
    pub owner: Owner,
    pub there: Assertion,
    pub needed: Assertion,
    pub certificate: &'a Certificate,
}

// A body, or a statement in it.
#[derive(Clone, Copy)]
enum Code<'a> {
    Body(&'a [CoreStmt]),
    Statement(&'a CoreStmt),
}

#[derive(Drop)]
struct Walk<'a> {
    alloc: Global,
    scope: Scope<'a>,
    goals: Vec<Goal<'a>>,
}

fn statements_of<'a>(code: Code<'a>) -> Result<&'a [CoreStmt], Stop> {
    match code {
        Code::Body(body) => Ok(body),
        Code::Statement(CoreStmt::Seq(parts)) => Ok(parts),
        Code::Statement(CoreStmt::Switch(_, _, parts)) => Ok(parts),
        Code::Statement(_) => Err(Stop::Breaks),
    }
}

// The posts of the parts of a switch, behind which a break leads.
fn switch_posts<'a>(q: Posts<'a>) -> Posts<'a> {
    Posts {
        next: q.next,
        on_break: q.next,
        on_continue: q.on_continue,
        on_return: q.on_return,
    }
}

impl<'a> Walk<'a> {
    // What must be free before this code, by this derivation.
    fn needed(&self, d: &Derivation, code: Code<'_>, q: Posts<'_>) -> Result<Assertion, Stop> {
        let answer = match code {
            Code::Body(body) => body_pre(self.alloc, &mut Room::to_make(), d, self.scope, body, q),
            Code::Statement(s) => pre(self.alloc, &mut Room::to_make(), d, self.scope, s, q),
        };
        match answer {
            Ok(needed) => Ok(needed),
            Err(Failure::NoMemory) => Err(Stop::NoMemory),
            Err(Failure::Fault(_, _)) => Err(Stop::Breaks),
        }
    }

    // What is needed behind part i of a sequence or a switch.
    fn behind(
        &self,
        ds: &[Derivation],
        ss: &[CoreStmt],
        q: Posts<'_>,
        i: usize,
    ) -> Result<Assertion, Stop> {
        let mut next = q.next.copy(self.alloc)?;
        for at in (i.saturating_add(1)..ds.len().min(ss.len())).rev() {
            next = self.needed(&ds[at], Code::Statement(&ss[at]), with_next(q, &next))?;
        }
        Ok(next)
    }

    // What is free behind a call with a frame.
    fn left(
        &self,
        frame: &Assertion,
        g: FnId,
        destination: Option<u32>,
        arguments: &[CoreExpr],
    ) -> Result<Assertion, Stop> {
        let functions = self.scope.functions;
        let callee = functions.get(g.0 as usize).ok_or(Stop::Breaks)?;
        let entry = entry_in(self.scope.entries, g).ok_or(Stop::Breaks)?;
        let behind = Replacement::BehindCall(callee, destination, arguments);
        let given = replaced(self.alloc, behind, &entry.spec.post)?;
        Ok(with_frame_behind(self.alloc, self.scope.resource, g, given, frame)?)
    }

    fn put(
        &mut self,
        owner: Owner,
        there: &Assertion,
        needed: Assertion,
        certificate: &'a Certificate,
    ) -> Result<(), Stop> {
        let there = there.copy(self.alloc)?;
        self.goals.push(Goal {
            owner,
            there,
            needed,
            certificate,
        })?;
        Ok(())
    }

    // Puts the goals of the certificates at a statement, in the order in which they are checked.
    // Where the first is refused, what the second is to show isn't known.
    #[cycle(put_goals)]
    fn put_goals(&mut self, d: &'a Derivation, code: Code<'a>, q: Posts<'_>) -> Result<(), Stop> {
        match (d, code) {
            (
                Derivation::Loop(invariant, certificate, body, step),
                Code::Statement(CoreStmt::Loop(b, s)),
            ) => {
                let next = self.needed(step, Code::Statement(s), step_posts(invariant, q))?;
                let needed = self.needed(body, Code::Statement(b), body_posts(&next, q))?;
                self.put(Owner::Loop, invariant, needed, certificate)
            }
            (
                Derivation::Call(frame, certificate),
                Code::Statement(CoreStmt::Call(destination, Callee::Function(g), arguments)),
            ) => {
                let there = self.left(frame, *g, *destination, arguments)?;
                let next = q.next.copy(self.alloc)?;
                self.put(Owner::Call, &there, next, certificate)
            }
            (Derivation::Consequence(r, certificate, inner), _) => {
                self.put_goals(inner, code, q)?;
                match self.needed(inner, code, q) {
                    Ok(needed) => self.put(Owner::Use, r, needed, certificate),
                    Err(Stop::NoMemory) => Err(Stop::NoMemory),
                    Err(_) => Ok(()),
                }
            }
            _ => Ok(()),
        }
    }

    // Puts the goals at a path from the parts of a sequence or a switch.
    #[cycle(put_at)]
    fn put_in(
        &mut self,
        ds: &'a [Derivation],
        code: Code<'a>,
        q: Posts<'_>,
        path: &[usize],
    ) -> Result<(), Stop> {
        let (i, rest) = path.split_first().ok_or(Stop::Breaks)?;
        let ss = statements_of(code)?;
        let d = ds.get(*i).ok_or(Stop::Breaks)?;
        let s = ss.get(*i).ok_or(Stop::Breaks)?;
        let next = self.behind(ds, ss, q, *i)?;
        self.put_at(d, Code::Statement(s), with_next(q, &next), rest)
    }

    // Puts the goals of the certificates at the statement with this path from here.
    #[cycle(put_at)]
    fn put_at(
        &mut self,
        d: &'a Derivation,
        code: Code<'a>,
        q: Posts<'_>,
        path: &[usize],
    ) -> Result<(), Stop> {
        let Some((i, rest)) = path.split_first() else {
            return self.put_goals(d, code, q);
        };
        match (d, code) {
            (Derivation::Consequence(_, _, inner), _) => self.put_at(inner, code, q, path),
            (Derivation::Sequence(ds), _) => self.put_in(ds, code, q, path),
            (Derivation::Switch(ds), _) => self.put_in(ds, code, switch_posts(q), path),
            (Derivation::Conditional(first, second), Code::Statement(CoreStmt::If(_, yes, no))) => {
                if *i == 0 {
                    self.put_at(first, Code::Statement(yes), q, rest)
                } else {
                    self.put_at(second, Code::Statement(no), q, rest)
                }
            }
            (Derivation::Loop(invariant, _, body, step), Code::Statement(CoreStmt::Loop(b, s))) => {
                let behind_step = step_posts(invariant, q);
                if *i > 0 {
                    return self.put_at(step, Code::Statement(s), behind_step, rest);
                }
                let next = self.needed(step, Code::Statement(s), behind_step)?;
                self.put_at(body, Code::Statement(b), body_posts(&next, q), rest)
            }
            _ => Err(Stop::Breaks),
        }
    }
}

/// The goals of the certificates at the statement with this path, in the order in which they are
/// checked, or that of the entry's own.
pub fn goals_of<'a>(
    alloc: Global,
    scope: Scope<'a>,
    entry: &'a FunctionProof,
    statement: Option<&[usize]>,
) -> Result<Vec<Goal<'a>>, Stop> {
    let goals = Vec::new(alloc);
    let mut walk = Walk {
        alloc,
        scope,
        goals,
    };
    let body = Code::Body(&scope.function.body);
    let post = &entry.spec.post;
    let posts = Posts {
        next: post,
        on_break: post,
        on_continue: post,
        on_return: post,
    };
    if let Some(path) = statement {
        walk.put_at(&entry.body, body, posts, path)?;
        return Ok(walk.goals);
    }
    let needed = walk.needed(&entry.body, body, posts)?;
    let plain = replaced(alloc, Replacement::AsPlain, &needed)?;
    walk.put(Owner::Entry, &entry.spec.pre, plain, &entry.entry)?;
    Ok(walk.goals)
}
