//! The service: words in, words out. Messages are read, their calls are made on a register, and the answers are words again.
#![tactic(auto)]

mod answering;
pub mod counter;
mod serving;
mod streaming;
mod words;

pub use serving::{BookMemory, serve, whole_day};
pub use streaming::{MOST_WORDS, serve_stream};
