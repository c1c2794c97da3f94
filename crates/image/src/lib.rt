//! How flat and sparse stores lie in words that the caller lends, and what is wrong with words in which none lies.
#![tactic(auto)]

mod boundary;
mod cell_words;
mod fault;
mod flat;
mod sparse;
mod stored_line;

pub use boundary::check_boundary;
pub use fault::{Cause, Fault};
pub use flat::{Flat, check_flat};
pub use sparse::{Sparse, check_sparse};
pub use stored_line::{FLAT_LINES, SPARSE_LINES, limits_are_numbers};
