// What is known at a node of a certificate.
ghost use Rattle.std.specs.Prelude.{◌≡◌};
ghost use Rattle.qs_entail.specs.Extending.{known_first};
ghost use Rattle.qs_entail.specs.View.{known_view};

use qs_assert::Cond;
use qs_poly::Poly;

/// The conditions that hold, and the polynomials that are at least 0, each in the order of pushing.
#[derive(Drop)]
pub struct Known {
    pub conditions: Vec<Cond>,
    pub polynomials: Vec<Poly>,
}

impl Known {
    /// Forgets all but the first conditions and polynomials.
    pub fn restore(&mut self, conditions: usize, polynomials: usize)
        ensures { known_view self.new ≡ known_first conditions polynomials (known_view self.old) }
    {
        self.conditions.truncate(conditions);
        self.polynomials.truncate(polynomials);
    }
}
