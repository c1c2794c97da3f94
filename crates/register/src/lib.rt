//! The register: the calls that are made on it, and what they answer.
#![tactic(auto)]

mod access;
mod agreement;
mod ending;
mod floors;
mod gathered;
mod range;
mod register;
mod relation;
mod row_book;
mod slots;
mod validation;

pub use agreement::{Verdict, validate_both};
pub use register::Register;
