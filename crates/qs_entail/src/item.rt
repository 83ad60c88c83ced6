// The items of combinations.

/// A summand of a combination of the polynomials that are known to be at least 0. They are told by
/// their numbers in the order of pushing, from 0; a number that no polynomial has fails the side
/// condition.
#[derive(Clone, Copy, Debug)]
pub enum Item {
    /// So many times a polynomial.
    Once(u64, i64),
    /// So many times the product of two polynomials.
    Twice(u64, i64, i64),
}
