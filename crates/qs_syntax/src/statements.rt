// Statements (C11 6.8): their trees, and the numbers of their nodes.
ghost use Rattle.std.specs.Prelude.{IfOk, OnOk};
ghost use Rattle.qs_syntax.specs.Sorts.{HasRoom, Numbers, Counts, Appends, alternatives, blocks};
ghost use Rattle.qs_syntax.specs.Sorts.{optional_expressions, starts, statement_list, statements};

use crate::declarations::{Declaration, number_owned_declaration};
use crate::expressions::{Expr, number_owned_expr};
use crate::nodes::{Node, number_node};
use qs_base::NoMemory;
use std::mem;

/// What a `for` begins with (C11 6.8.5.3).
#[derive(Drop)]
pub enum Start {
    /// Nothing.
    Nothing,
    /// An expression.
    Expression(Expr),
    /// A declaration.
    Declaration(Declaration),
}

/// A statement or a declaration of a block (C11 6.8).
#[cycle(stmt)]
pub enum Stmt {
    /// `;`
    Empty(Node),
    /// An expression.
    Expression(Node, Expr),
    /// A declaration.
    Declaration(Declaration),
    /// A block.
    Block(Vec<Stmt>),
    /// `switch`
    Switch {
        /// Its node.
        node: Node,
        /// What decides where its items begin.
        operand: Expr,
        /// What stands between its braces: its labels too, each before the statement that it marks.
        items: Vec<Stmt>,
    },
    /// `case`, a label of a switch
    Case(Node, Expr),
    /// `default`, a label of a switch
    Default(Node),
    /// `if`
    If {
        /// Its node.
        node: Node,
        /// The condition.
        condition: Expr,
        /// What follows the condition.
        then: Box<Stmt>,
        /// What follows `else`.
        otherwise: Option<Box<Stmt>>,
    },
    /// `while`
    While {
        /// Its node.
        node: Node,
        /// The condition.
        condition: Expr,
        /// The body.
        body: Box<Stmt>,
    },
    /// `do`
    Do {
        /// Its node.
        node: Node,
        /// The body.
        body: Box<Stmt>,
        /// The condition.
        condition: Expr,
    },
    /// `for`
    For {
        /// Its node.
        node: Node,
        /// What it begins with.
        start: Start,
        /// The condition.
        condition: Option<Expr>,
        /// What follows each turn.
        step: Option<Expr>,
        /// The body.
        body: Box<Stmt>,
    },
    /// `break`
    Break(Node),
    /// `continue`
    Continue(Node),
    /// `return`
    Return(Node, Option<Expr>),
}

// By hand, as the drops of expressions.
impl Drop for Stmt {
    #[cycle(drop_stmt)]
    fn drop(self) {
        match self {
            Stmt::Empty(_) => {}
            Stmt::Expression(_, _) => {}
            Stmt::Declaration(_) => {}
            Stmt::Block(_) => {}
            Stmt::Switch {
                node: _,
                operand: _,
                items: _,
            } => {}
            Stmt::Case(_, _) => {}
            Stmt::Default(_) => {}
            Stmt::If {
                node: _,
                condition: _,
                then: _,
                otherwise: _,
            } => {}
            Stmt::While {
                node: _,
                condition: _,
                body: _,
            } => {}
            Stmt::Do {
                node: _,
                body: _,
                condition: _,
            } => {}
            Stmt::For {
                node: _,
                start: _,
                condition: _,
                step: _,
                body: _,
            } => {}
            Stmt::Break(_) => {}
            Stmt::Continue(_) => {}
            Stmt::Return(_, _) => {}
        }
    }
}

// ---- the numbers of the nodes

fn number_option(option: Option<Expr>, tokens: &mut Vec<u32>) -> Result<Option<Expr>, NoMemory>
    requires { HasRoom optional_expressions tokens.old option }
    ensures tree { IfOk result (Numbers optional_expressions tokens.old option) }
    ensures end { OnOk result (Counts optional_expressions tokens.old option tokens.new) }
    ensures tokens { OnOk result (Appends optional_expressions tokens.old option tokens.new) }
{
    match option {
        None => Ok(None),
        Some(e) => Ok(Some(number_owned_expr(e, tokens)?)),
    }
}

fn number_start(start: Start, tokens: &mut Vec<u32>) -> Result<Start, NoMemory>
    requires { HasRoom starts tokens.old start }
    ensures tree { IfOk result (Numbers starts tokens.old start) }
    ensures end { OnOk result (Counts starts tokens.old start tokens.new) }
    ensures tokens { OnOk result (Appends starts tokens.old start tokens.new) }
{
    match start {
        Start::Nothing => Ok(Start::Nothing),
        Start::Expression(e) => Ok(Start::Expression(number_owned_expr(e, tokens)?)),
        Start::Declaration(d) => Ok(Start::Declaration(number_owned_declaration(d, tokens)?)),
    }
}

impl Stmt {
    #[cycle(number_stmt)]
    #[tactic(auto, using(crate::proofs::NumberingLoops::numbering))]
    fn with_numbers(self, tokens: &mut Vec<u32>) -> Result<Stmt, NoMemory>
        requires { HasRoom statements tokens.old self }
        ensures tree { IfOk result (Numbers statements tokens.old self) }
        ensures end { OnOk result (Counts statements tokens.old self tokens.new) }
        ensures tokens { OnOk result (Appends statements tokens.old self tokens.new) }
    {
        match self {
            Stmt::Empty(node) => Ok(Stmt::Empty(number_node(node, tokens)?)),
            Stmt::Expression(node, e) => {
                let node = number_node(node, tokens)?;
                Ok(Stmt::Expression(node, number_owned_expr(e, tokens)?))
            }
            Stmt::Declaration(d) => Ok(Stmt::Declaration(number_owned_declaration(d, tokens)?)),
            Stmt::Block(items) => Ok(Stmt::Block(number_items(items, tokens)?)),
            Stmt::Switch {
                node,
                operand,
                items,
            } => Ok(Stmt::Switch {
                node: number_node(node, tokens)?,
                operand: number_owned_expr(operand, tokens)?,
                items: number_items(items, tokens)?,
            }),
            Stmt::Case(node, e) => {
                let node = number_node(node, tokens)?;
                Ok(Stmt::Case(node, number_owned_expr(e, tokens)?))
            }
            Stmt::Default(node) => Ok(Stmt::Default(number_node(node, tokens)?)),
            Stmt::If {
                node,
                condition,
                then,
                otherwise,
            } => Ok(Stmt::If {
                node: number_node(node, tokens)?,
                condition: number_owned_expr(condition, tokens)?,
                then: number_boxed(then, tokens)?,
                otherwise: number_else(otherwise, tokens)?,
            }),
            Stmt::While {
                node,
                condition,
                body,
            } => Ok(Stmt::While {
                node: number_node(node, tokens)?,
                condition: number_owned_expr(condition, tokens)?,
                body: number_boxed(body, tokens)?,
            }),
            Stmt::Do {
                node,
                body,
                condition,
            } => Ok(Stmt::Do {
                node: number_node(node, tokens)?,
                body: number_boxed(body, tokens)?,
                condition: number_owned_expr(condition, tokens)?,
            }),
            Stmt::For {
                node,
                start,
                condition,
                step,
                body,
            } => Ok(Stmt::For {
                node: number_node(node, tokens)?,
                start: number_start(start, tokens)?,
                condition: number_option(condition, tokens)?,
                step: number_option(step, tokens)?,
                body: number_boxed(body, tokens)?,
            }),
            Stmt::Break(node) => Ok(Stmt::Break(number_node(node, tokens)?)),
            Stmt::Continue(node) => Ok(Stmt::Continue(number_node(node, tokens)?)),
            Stmt::Return(node, e) => {
                let node = number_node(node, tokens)?;
                Ok(Stmt::Return(node, number_option(e, tokens)?))
            }
        }
    }
}

#[cycle(number_stmt)]
#[tactic(auto, using(crate::proofs::NumberingLoops::numbering))]
fn number_boxed(s: Box<Stmt>, tokens: &mut Vec<u32>) -> Result<Box<Stmt>, NoMemory>
    requires { HasRoom statements tokens.old s.value }
    ensures tree { IfOk result (λ to. Numbers statements tokens.old s.value to.value) }
    ensures end { OnOk result (Counts statements tokens.old s.value tokens.new) }
    ensures tokens { OnOk result (Appends statements tokens.old s.value tokens.new) }
{
    let mut s = s;
    let from = mem::replace(&mut *s, Stmt::Empty(Node { id: 0, token: 0 }));
    *s = from.with_numbers(tokens)?;
    Ok(s)
}

#[cycle(number_stmt)]
#[tactic(auto, using(crate::proofs::NumberingLoops::numbering))]
fn number_else(
    from: Option<Box<Stmt>>,
    tokens: &mut Vec<u32>,
) -> Result<Option<Box<Stmt>>, NoMemory>
    requires { HasRoom alternatives tokens.old from }
    ensures tree { IfOk result (Numbers alternatives tokens.old from) }
    ensures end { OnOk result (Counts alternatives tokens.old from tokens.new) }
    ensures tokens { OnOk result (Appends alternatives tokens.old from tokens.new) }
{
    match from {
        None => Ok(None),
        Some(mut s) => {
            let from = mem::replace(&mut *s, Stmt::Empty(Node { id: 0, token: 0 }));
            *s = from.with_numbers(tokens)?;
            Ok(Some(s))
        }
    }
}

#[cycle(number_stmt)]
#[tactic(auto, using(crate::proofs::NumberingLoops::stmts_numbering))]
fn number_items(items: Vec<Stmt>, tokens: &mut Vec<u32>) -> Result<Vec<Stmt>, NoMemory>
    requires { HasRoom blocks tokens.old items.items }
    ensures tree { IfOk result (λ to. Numbers blocks tokens.old items.items to.items) }
    ensures end { OnOk result (Counts blocks tokens.old items.items tokens.new) }
    ensures tokens { OnOk result (Appends blocks tokens.old items.items tokens.new) }
{
    let mut items = items;
    number_stmts(&mut items, tokens)?;
    Ok(items)
}

/// Numbers the nodes of statements, in their order, where `tokens` has the token of each node
/// before them; theirs are put behind.
#[cycle(number_stmt)]
#[tactic(auto, using(crate::proofs::NumberingLoops::numbering))]
pub fn number_stmts(items: &mut [Stmt], tokens: &mut Vec<u32>) -> Result<(), NoMemory>
    requires { HasRoom statement_list tokens.old items.old }
    ensures tree { OnOk result (Numbers statement_list tokens.old items.old items.new) }
    ensures end { OnOk result (Counts statement_list tokens.old items.old tokens.new) }
    ensures tokens { OnOk result (Appends statement_list tokens.old items.old tokens.new) }
{
    for s in items.iter_mut() {
        let from = mem::replace(s, Stmt::Empty(Node { id: 0, token: 0 }));
        *s = from.with_numbers(tokens)?;
    }
    Ok(())
}
