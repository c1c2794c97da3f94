//! What is told of a plot: where it lies from the chapel door, its holder and its status; and an image told in lines of text.
#![tactic(auto)]

mod column;
pub mod counts;
pub mod listing;
pub mod offset;
pub mod plot;
pub mod printer;
pub mod printing;
