// Texts among expressions (C11 6.4.5).
ghost use Rattle.std.specs.Prelude.{◌≡◌, IfOk, Some};
ghost use Rattle.qs_syntax.specs.TreeOf.{expr_tree};
ghost use Rattle.qs_types.specs.Declarations.{text_of};

use qs_base::NoMemory;
use qs_syntax::{Expr, Shape};
use qs_syntax_vocabulary::Text;

/// The text that an expression is.
pub fn text_of(e: &Expr) -> Result<&Text, NoMemory>
    ensures { IfOk result (λ text. text_of (expr_tree e.now) ≡ Some text.now) }
{
    match &e.shape {
        Shape::Text(text) => Ok(text),
        _ => Err(NoMemory),
    }
}
