//! Policies: which part of a range of stamps a validation takes for its transaction.
#![tactic(auto)]

mod near;
mod policy;
mod whole;

pub use near::Near;
pub use policy::Policy;
pub use whole::Whole;
