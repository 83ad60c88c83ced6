// A unit of linear code.
ghost use Rattle.std.specs.Prelude.{◌≡◌, true, map};
ghost use Rattle.qs_tac.specs.TreeOf.{function_tree};
ghost use Rattle.qs_tac.specs.Fits.{unit_fits};

use crate::units::{TacData, TacFunction};
use qs_base::FnId;

/// A unit. Its numbers are below their counts, each call has as many arguments as its callee has
/// parameters, and elements of pointers have from 1 to 16,777,216 bytes.
#[derive(Drop)]
pub struct TacUnit {
    /// the functions with a body, in the order of their definitions
    pub functions: Vec<TacFunction>,
    /// main
    pub main: FnId,
    /// the file-scope variables in order of declaration, and then the string literals in order of
    /// the text: the first blocks of every memory
    pub data_blocks: Vec<TacData>,
    ghost fits: { unit_fits (record { functions = map function_tree functions.items; main = main.0; data_blocks = data_blocks.items }) ≡ true },
}
