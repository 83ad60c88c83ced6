// What the walk over a body knows.
ghost use Rattle.std.specs.Prelude.{◌≡◌};
ghost use Rattle.qs_triples.specs.Rules as rules;
ghost use Rattle.qs_triples.specs.Views.{posts_view};

use crate::derivation::{FunctionProof, Spec};
use crate::resource::Resource;
use qs_assert::{Assertion, Define};
use qs_core::CoreFunction;

/// What is enough behind a statement, in each way in which it can be left.
#[derive(Clone, Copy)]
pub struct Posts<'a> {
    /// behind it
    pub next: &'a Assertion,
    /// after a break
    pub on_break: &'a Assertion,
    /// after a continue
    pub on_continue: &'a Assertion,
    /// after a return
    pub on_return: &'a Assertion,
}

/// What is the same all through a body.
#[derive(Clone, Copy)]
pub struct Scope<'a> {
    /// what is bounded
    pub resource: Resource,
    /// the function whose body it is
    pub function: &'a CoreFunction,
    /// all functions of the unit
    pub functions: &'a [CoreFunction],
    /// those that have a specification
    pub entries: &'a [FunctionProof],
    /// the definitions
    pub defines: &'a [Define],
}

/// A function that is called, and its specification.
#[derive(Clone, Copy)]
pub struct Known<'a> {
    /// the function
    pub function: &'a CoreFunction,
    /// its specification
    pub spec: &'a Spec,
}

// ---- the posts of parts

/// The same posts with another one behind the statement.
pub fn with_next<'a>(q: Posts<'a>, next: &'a Assertion) -> Posts<'a>
    ensures { posts_view result ≡ rules.with_next (posts_view q.entry) next.now }
{
    Posts {
        next,
        on_break: q.on_break,
        on_continue: q.on_continue,
        on_return: q.on_return,
    }
}

/// Those of the step of a loop with this invariant.
pub fn step_posts<'a>(invariant: &'a Assertion, q: Posts<'a>) -> Posts<'a>
    ensures { posts_view result ≡ rules.step_posts invariant.now (posts_view q.entry) }
{
    Posts {
        next: invariant,
        on_break: q.next,
        on_continue: q.on_continue,
        on_return: q.on_return,
    }
}

/// Those of the parts of a switch.
pub fn switch_posts<'a>(q: Posts<'a>) -> Posts<'a>
    ensures { posts_view result ≡ rules.switch_posts (posts_view q.entry) }
{
    Posts {
        next: q.next,
        on_break: q.next,
        on_continue: q.on_continue,
        on_return: q.on_return,
    }
}

/// Those of the body of a loop, before whose step this must be free.
pub fn body_posts<'a>(before_step: &'a Assertion, q: Posts<'a>) -> Posts<'a>
    ensures { posts_view result ≡ rules.body_posts before_step.now (posts_view q.entry) }
{
    Posts {
        next: before_step,
        on_break: q.next,
        on_continue: before_step,
        on_return: q.on_return,
    }
}
