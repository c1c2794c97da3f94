//! What is promised of the calls.
#![tactic(auto)]

pub mod law;
