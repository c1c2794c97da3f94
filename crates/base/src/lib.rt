//! The vocabulary that every other crate speaks: keys and the places they name, values, stamps, refusals, and the numbers of words' kinds.
#![tactic(auto)]

mod kind;
mod place;
mod refusal;
mod stamp;
pub mod value;

pub use kind::Kind;
pub use place::{Field, GROUNDS, PLOTS, Place};
pub use refusal::Refusal;
pub use stamp::{Stamp, TOP};
