// Whether two variables are the same.
ghost use Rattle.std.specs.Prelude.{◌≡◌};
ghost use Rattle.qs_assert.specs.Substitution.{same_kind, same_number_type, same_variable};

use crate::{NumberType, Var, VarKind};

impl VarKind {
    /// Whether the two are the same kind.
    pub fn same(self, other: VarKind) -> bool
        ensures { result ≡ same_kind self other }
    {
        match (self, other) {
            (VarKind::Plain(i), VarKind::Plain(j)) => i == j,
            (VarKind::Temporary(i), VarKind::Temporary(j)) => i == j,
            (VarKind::Old(i), VarKind::Old(j)) => i == j,
            (VarKind::Returned, VarKind::Returned) => true,
            _ => false,
        }
    }
}

impl NumberType {
    /// Whether the two are the same type.
    pub fn same(self, other: NumberType) -> bool
        ensures { result ≡ same_number_type self other }
    {
        self == other
    }
}

impl Var {
    /// Whether the two are the same variable at the same type.
    pub fn same(self, other: Var) -> bool
        ensures { result ≡ same_variable self other }
    {
        self.kind.same(other.kind) && self.number.same(other.number)
    }
}
