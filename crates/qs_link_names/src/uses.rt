// The names that initialisers use as those of variables (C11 6.5.1).
ghost use Rattle.std.specs.Prelude.{◌≡◌, true, map};
ghost use Rattle.std.specs.List.{list_all};
ghost use Rattle.qs_syntax.specs.TreeOf.{expr_tree, exprs_tree, initialiser_tree, initialisers_tree};
ghost use Rattle.qs_syntax.specs.TreeOf.{list_tree, setting_tree, shape_tree};
ghost use Rattle.qs_syntax_vocabulary.specs.Marks.{is_in};
ghost use Rattle.qs_link_names.specs.Uses as spec;

use indexmap::IndexSet;
use qs_base::Name;
use qs_syntax::{Expr, Initialiser, InitialiserList, Shape};

/// Whether an expression uses these names only.
#[cycle(uses_only)]
#[tactic(auto, using(crate::proofs::UseLaws::use_laws))]
fn uses_only(names: &IndexSet<Name>, e: &Expr) -> bool
    ensures { result ≡ list_all (is_in names.now.keys) (spec.uses (expr_tree e.now)) }
{
    match &e.shape {
        Shape::Constant(_, _) => true,
        Shape::Text(_) => true,
        Shape::Name(name) => names.contains(name),
        Shape::Unary(_, a) => uses_only(names, a),
        Shape::Step(_, a) => uses_only(names, a),
        Shape::Cast(_, a) => uses_only(names, a),
        Shape::SizeofType(_) => true,
        Shape::SizeofExpr(a) => uses_only(names, a),
        Shape::Binary { left, right, .. } => uses_only(names, left) && uses_only(names, right),
        Shape::Assign { left, right, .. } => uses_only(names, left) && uses_only(names, right),
        Shape::Conditional {
            condition,
            then,
            otherwise,
        } => {
            uses_only(names, condition) && (uses_only(names, then) && uses_only(names, otherwise))
        }
        Shape::Comma(a, b) => uses_only(names, a) && uses_only(names, b),
        Shape::Subscript(a, b) => uses_only(names, a) && uses_only(names, b),
        Shape::Member { object, .. } => uses_only(names, object),
        Shape::Call(_, arguments) => all_use_only(names, arguments),
    }
}

#[cycle(uses_only)]
#[tactic(auto, using(crate::proofs::UseLaws::use_laws))]
fn all_use_only(names: &IndexSet<Name>, es: &[Expr]) -> bool
    ensures { result ≡ list_all (is_in names.now.keys) (spec.all_uses (exprs_tree es.now)) }
{
    for e in es {
        if !uses_only(names, e) {
            return false;
        }
    }
    true
}

#[cycle(initialiser_uses_only)]
#[tactic(auto, using(crate::proofs::UseLaws::use_laws))]
fn initialiser_uses_only(names: &IndexSet<Name>, initialiser: &Initialiser) -> bool
    ensures { result ≡ list_all (is_in names.now.keys) (spec.initialiser_uses (initialiser_tree initialiser.now)) }
{
    match initialiser {
        Initialiser::Value(e) => uses_only(names, e),
        Initialiser::List(list) => list_uses_only(names, list),
    }
}

#[cycle(initialiser_uses_only)]
fn list_uses_only(names: &IndexSet<Name>, list: &InitialiserList) -> bool
    ensures { result ≡ list_all (is_in names.now.keys) (spec.initialiser_uses (list_tree list.now)) }
{
    items_use_only(names, &list.items)
}

#[cycle(initialiser_uses_only)]
#[tactic(auto, using(crate::proofs::UseLaws::use_laws))]
fn items_use_only(names: &IndexSet<Name>, items: &[Initialiser]) -> bool
    ensures { result ≡ list_all (is_in names.now.keys) (spec.initialisers_uses (initialisers_tree items.now)) }
{
    for item in items {
        if !initialiser_uses_only(names, item) {
            return false;
        }
    }
    true
}

/// Whether what a variable is set to uses these names only.
pub fn setting_uses_only(names: &IndexSet<Name>, setting: &Option<Initialiser>) -> bool
    ensures { result ≡ list_all (is_in names.now.keys) (spec.setting_uses (setting_tree setting.now)) }
{
    match setting {
        None => true,
        Some(initialiser) => initialiser_uses_only(names, initialiser),
    }
}
