//! The codec: words of a kind, messages, and words from bytes.
#![tactic(auto)]

pub mod bytes;
pub mod message;
pub mod word;
