// The functions that tasks may have.
ghost use Rattle.std.specs.Prelude.{◌≡◌, option_map, IfOk};
ghost use Rattle.qs_syntax.specs.TreeOf.{decl_tree, function_tree};
ghost use Rattle.qs_syntax.specs.UnitTrees.{unit_tree};
ghost use Rattle.qs_tasks_list.specs.Listing.{defined_of, may_be_task, task_function};

use qs_base::{FnId, NoMemory, sum};
use qs_syntax::{Decl, Function, Unit};

fn may_be_task(f: &Function) -> bool
    ensures { result ≡ may_be_task (function_tree f.now) }
{
    f.parameters.is_empty() && f.name.bytes() != b"main".as_slice()
}

// The function that a declaration defines.
fn defined(declaration: &Decl) -> Option<&Function>
    ensures { option_map (λ f. function_tree f.now) result ≡ defined_of (decl_tree declaration.now) }
{
    match declaration {
        Decl::Struct(_) => None,
        Decl::Forward(_) => None,
        Decl::Typedef(_) => None,
        Decl::Function(f) => { if f.body.is_some() { Some(f) } else { None } }
        Decl::Variable(_) => None,
    }
}

/// The number of the function of this name, if it may be that of a task.
pub fn task_function(unit: &Unit, name: &[u8]) -> Result<Option<FnId>, NoMemory>
    ensures { IfOk result (λ f. option_map (λ f. f.0) f ≡ task_function (unit_tree unit.now) name.now) }
{
    let declarations = unit.declarations();
    let mut number: u32 = 0;
    for declaration in declarations {
        if let Some(f) = defined(declaration) {
            if f.name.bytes() == name && may_be_task(f) {
                return Ok(Some(FnId(number)));
            }
            number = sum(number, 1)?;
        }
    }
    Ok(None)
}
