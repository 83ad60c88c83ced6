// What the operations mean.
ghost use Rattle.qs_poly.specs.Laws.{AreExact};

/// The coefficients of sums, multiples and products are those of mathematics, and two polynomials
/// are equal exactly where all their coefficients are, which `==` tests.
pub fn polynomials_are_exact()
    ensures { AreExact }
{}
