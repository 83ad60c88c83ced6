//! Tests of what no clause says and no row of a table can show: calls of the system that are
//! interrupted, and that memory is found for what is deeper or larger than a row makes it.
#![tactic(auto)]

#[cfg(test)]
mod assertions;
#[cfg(test)]
mod blanks;
#[cfg(test)]
mod interrupted;
#[cfg(test)]
mod lists;
#[cfg(test)]
mod polynomials;
#[cfg(test)]
mod ports;
