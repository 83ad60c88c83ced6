// The nodes of derivations without the derivations in them.
ghost use Rattle.std.specs.Prelude.{◌≡◌};
ghost use Rattle.qs_entail.specs.View.{cert_tree};
ghost use Rattle.qs_prooftext_assertions.specs.Answers.{StandAll};
ghost use Rattle.qs_prooftext.specs.DerivationHeads.{derivation_head, reason_means, reason_view};
ghost use Rattle.qs_prooftext.specs.DerivationHeads.{head_of};
ghost use Rattle.qs_prooftext_meaning.specs.Kinds.{a_certificate};
ghost use Rattle.qs_prooftext_meaning.specs.Settings.{look_up};
ghost use Rattle.qs_prooftext.specs.StatementWords as spec;
ghost use Rattle.qs_sexpr.specs.Trees.{Sexps};
ghost use Rattle.qs_prooftext_assertions.specs.Readers.{ReadsParts, ReadsFirst};

use crate::certificates::read_certificate;
use qs_assert::Assertion;
use qs_entail::Certificate;
use qs_prooftext_assertions::{after_first, first_assertion};
use qs_prooftext_meaning::{Context, TextFault};
use qs_sexpr::{Node, first_part};
use std::alloc::Global;

/// The head of a derivation.
#[derive(Clone, Copy)]
pub enum Statement {
    Leaf,
    Sequence,
    Conditional,
    Loop,
    Switch,
    Call,
    BalancedCall,
    Consequence,
}

/// An assertion, and the certificate that shows it to be enough.
#[derive(Drop)]
pub struct Reason {
    /// the assertion
    pub assertion: Assertion,
    /// its certificate
    pub certificate: Certificate,
}

/// A node of a derivation without the derivations that are its parts.
#[derive(Drop)]
pub enum DerivationHead {
    Leaf,
    /// So many parts.
    Sequence(usize),
    Conditional,
    Loop(Reason),
    /// So many parts.
    Switch(usize),
    Call(Reason),
    BalancedCall,
    Consequence(Reason),
}

/// The statement that is written so.
pub fn statement_word(word: &[u8]) -> Option<Statement>
    ensures { result ≡ look_up word.now spec.statement_words }
{
    match word {
        b"leaf" => Some(Statement::Leaf),
        b"seq" => Some(Statement::Sequence),
        b"if" => Some(Statement::Conditional),
        b"loop" => Some(Statement::Loop),
        b"switch" => Some(Statement::Switch),
        b"call" => Some(Statement::Call),
        b"bal" => Some(Statement::BalancedCall),
        b"use" => Some(Statement::Consequence),
        _ => None,
    }
}

/// Whether a list with this head may have so many other parts.
pub fn statement_takes(statement: Statement, count: usize) -> bool
    ensures { result ≡ spec.statement_takes statement count }
{
    match statement {
        Statement::Leaf => count == 0,
        Statement::Sequence => true,
        Statement::Conditional => count == 2,
        Statement::Loop => count == 4,
        Statement::Switch => true,
        Statement::Call => count == 2,
        Statement::BalancedCall => count == 0,
        Statement::Consequence => count == 3,
    }
}

/// How many of its parts are no derivations; they stand first.
pub fn statement_leaves(statement: Statement) -> usize
    ensures { result ≡ spec.statement_leaves statement }
{
    match statement {
        Statement::Leaf => 0,
        Statement::Sequence => 0,
        Statement::Conditional => 0,
        Statement::Loop => 2,
        Statement::Switch => 0,
        Statement::Call => 2,
        Statement::BalancedCall => 0,
        Statement::Consequence => 2,
    }
}

fn first_certificate(
    alloc: Global,
    context: Context<'_>,
    parts: &[Node],
) -> Result<Certificate, TextFault>
    requires { (ss : Sexps) × StandAll context.text.now parts.now ss }
    ensures { ReadsFirst context.entry parts.now a_certificate cert_tree result }
{
    match first_part(parts) {
        Some((first, _others)) => read_certificate(alloc, context, first),
        None => Err(TextFault::UnknownForm(0)),
    }
}

fn first_reason(alloc: Global, context: Context<'_>, parts: &[Node]) -> Result<Reason, TextFault>
    requires { (ss : Sexps) × StandAll context.text.now parts.now ss }
    ensures { ReadsParts context.entry parts.now reason_means reason_view result }
{
    let assertion = first_assertion(alloc, context, parts)?;
    let certificate = first_certificate(alloc, context, after_first(parts))?;
    Ok(Reason {
        assertion,
        certificate,
    })
}

/// The node of a derivation with this head, so many parts behind it, and these parts.
pub fn statement_head(
    alloc: Global,
    context: Context<'_>,
    statement: Statement,
    count: usize,
    parts: &[Node],
) -> Result<DerivationHead, TextFault>
    requires { (ss : Sexps) × StandAll context.text.now parts.now ss }
    ensures { ReadsParts context.entry parts.now (head_of statement count) derivation_head result }
{
    match statement {
        Statement::Leaf => Ok(DerivationHead::Leaf),
        Statement::Sequence => Ok(DerivationHead::Sequence(count)),
        Statement::Conditional => Ok(DerivationHead::Conditional),
        Statement::Loop => Ok(DerivationHead::Loop(first_reason(alloc, context, parts)?)),
        Statement::Switch => Ok(DerivationHead::Switch(count)),
        Statement::Call => Ok(DerivationHead::Call(first_reason(alloc, context, parts)?)),
        Statement::BalancedCall => Ok(DerivationHead::BalancedCall),
        Statement::Consequence => {
            Ok(DerivationHead::Consequence(first_reason(alloc, context, parts)?))
        }
    }
}
