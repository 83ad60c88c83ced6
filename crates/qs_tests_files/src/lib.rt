//! Tests of the whole tool, which no clause says and no row of a table can show: over real files,
//! and of how branches stand in images.
#![tactic(auto)]

#[cfg(test)]
mod branches;
#[cfg(test)]
mod files;
