//! Tickets and slips: a transaction that code has begun cannot be forgotten before it is decided, nor before its rows are settled.
#![tactic(auto)]

mod slip;
mod ticket;

pub use slip::Slip;
pub use ticket::{Ticket, begin};
