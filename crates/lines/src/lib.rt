//! The lines of the register's five books, how a row moves, what a note means for a validation, and when a soft lock stands.
#![tactic(auto)]

pub mod access;
pub mod lock;
pub mod note;
pub mod row;
pub mod transaction;
