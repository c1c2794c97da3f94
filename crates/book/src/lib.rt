//! Books: lines of one kind, in the order written, in memory that the caller lends.
#![tactic(auto)]

mod book;
mod line;

pub use book::Book;
pub use line::Line;
