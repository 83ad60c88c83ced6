// The labels of a switch.
ghost use Rattle.std.specs.Prelude.{◌≡◌, [], ◌∷◌, IfOk, is_some, length};
ghost use Rattle.std.specs.Option.{option_to_list};
ghost use Rattle.qs_typed_trees.specs.TreeOf.{statement_tree};
ghost use Rattle.qs_meaning.specs.Fits.{is_label};
ghost use Rattle.qs_elaborate_bodies.specs.Statements.{label_before};
ghost use Rattle.qs_elaborate_bodies.specs.Results.{AddsLabels};

use qs_base::NoMemory;
use qs_core::{CoreLabel, CoreStmt};
use qs_typed_trees::Statement;

/// The label that an item of a switch is, before the part with this number.
pub fn label(s: &Statement, part: u32) -> Option<CoreLabel>
    ensures label { option_to_list result ≡ label_before part (statement_tree s.now) }
    ensures is { is_some result ≡ is_label (statement_tree s.now) }
{
    match s {
        Statement::Case(value) => Some(CoreLabel::Case {
            value: *value,
            part,
        }),
        Statement::Default => Some(CoreLabel::Default { part }),
        Statement::Evaluate(_) => None,
        Statement::Block(_) => None,
        Statement::Switch { .. } => None,
        Statement::Branch { .. } => None,
        Statement::WhileLoop(_, _) => None,
        Statement::DoLoop(_, _) => None,
        Statement::ForLoop { .. } => None,
        Statement::Break => None,
        Statement::Continue => None,
        Statement::Return(_, _) => None,
        Statement::ReturnNothing => None,
    }
}

/// The number of the part behind these. A switch has fewer than 2 ^ 32.
pub fn next_part(parts: &[CoreStmt]) -> Result<u32, NoMemory>
    ensures { IfOk result (λ k. k ≡ length parts.now) }
{
    let number = parts.len();
    if number > u32::MAX as usize {
        return Err(NoMemory);
    }
    Ok(number as u32)
}

/// One more label.
pub fn push_label(labels: &mut Vec<CoreLabel>, label: CoreLabel) -> Result<(), NoMemory>
    ensures { AddsLabels (label ∷ []) labels.old labels.new result }
{
    labels.push(label)?;
    Ok(())
}
