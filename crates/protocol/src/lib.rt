//! The protocol: the seven calls on a register, what each of them means, and days of them that were worked out by hand.
#![tactic(auto)]

mod call;
pub mod cases;

pub use call::{Call, Reply};
