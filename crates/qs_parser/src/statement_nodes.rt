// Nodes of statements, not yet numbered.
ghost use Rattle.std.specs.Prelude.{◌≡◌};
ghost use Rattle.qs_syntax.specs.Trees as trees;
ghost use Rattle.qs_syntax.specs.Trees.{stmts_of, unnumbered};
ghost use Rattle.qs_syntax.specs.TreeOf.{expr_tree, option_tree, stmt_tree};
ghost use Rattle.qs_parser_expressions.specs.View.{listed};
ghost use Rattle.qs_parser.specs.StatementNodes.{switch_tree, branch_tree, while_tree, do_tree, for_tree};

use qs_syntax::{Expr, Node, Start, Stmt};

/// A semicolon.
pub fn empty(token: u32) -> Stmt
    ensures { stmt_tree result ≡ trees.empty (unnumbered token) }
{
    Stmt::Empty(Node { id: 0, token })
}

/// An expression.
pub fn expression(token: u32, value: Expr) -> Stmt
    ensures { stmt_tree result ≡ trees.expression (unnumbered token) (expr_tree value) }
{
    Stmt::Expression(Node { id: 0, token }, value)
}

/// A block.
pub fn block(items: Vec<Stmt>) -> Stmt
    ensures { stmt_tree result ≡ trees.block (stmts_of (listed stmt_tree items)) }
{
    Stmt::Block(items)
}

/// `switch`.
pub fn switch_of(token: u32, operand: Expr, items: Vec<Stmt>) -> Stmt
    ensures { stmt_tree result ≡ switch_tree token operand (listed stmt_tree items) }
{
    Stmt::Switch {
        node: Node { id: 0, token },
        operand,
        items,
    }
}

/// `case`.
pub fn case_label(token: u32, value: Expr) -> Stmt
    ensures { stmt_tree result ≡ trees.case_label (unnumbered token) (expr_tree value) }
{
    Stmt::Case(Node { id: 0, token }, value)
}

/// `default`.
pub fn default_label(token: u32) -> Stmt
    ensures { stmt_tree result ≡ trees.default_label (unnumbered token) }
{
    Stmt::Default(Node { id: 0, token })
}

/// `if`, with what follows `else`.
#[tactic(auto, using(crate::proofs::CodeStatements::tree_of_if))]
pub fn branch(token: u32, condition: Expr, then: Box<Stmt>, otherwise: Option<Box<Stmt>>) -> Stmt
    ensures { stmt_tree result ≡ branch_tree token condition then otherwise }
{
    Stmt::If {
        node: Node { id: 0, token },
        condition,
        then,
        otherwise,
    }
}

/// `while`.
pub fn while_loop(token: u32, condition: Expr, body: Box<Stmt>) -> Stmt
    ensures { stmt_tree result ≡ while_tree token condition body }
{
    Stmt::While {
        node: Node { id: 0, token },
        condition,
        body,
    }
}

/// `do`.
pub fn do_loop(token: u32, body: Box<Stmt>, condition: Expr) -> Stmt
    ensures { stmt_tree result ≡ do_tree token body condition }
{
    Stmt::Do {
        node: Node { id: 0, token },
        body,
        condition,
    }
}

/// `for`.
pub fn for_loop(
    token: u32,
    start: Start,
    condition: Option<Expr>,
    step: Option<Expr>,
    body: Box<Stmt>,
) -> Stmt
    ensures { stmt_tree result ≡ for_tree token start condition step body }
{
    Stmt::For {
        node: Node { id: 0, token },
        start,
        condition,
        step,
        body,
    }
}

/// `break`.
pub fn broken(token: u32) -> Stmt
    ensures { stmt_tree result ≡ trees.break (unnumbered token) }
{
    Stmt::Break(Node { id: 0, token })
}

/// `continue`.
pub fn continued(token: u32) -> Stmt
    ensures { stmt_tree result ≡ trees.continue (unnumbered token) }
{
    Stmt::Continue(Node { id: 0, token })
}

/// `return`.
pub fn returned(token: u32, value: Option<Expr>) -> Stmt
    ensures { stmt_tree result ≡ trees.return (unnumbered token) (option_tree value) }
{
    Stmt::Return(Node { id: 0, token }, value)
}
