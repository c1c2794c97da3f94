//! Worked examples of the other crates, run as tests. They stand apart so that a crate is not proved again for them.
#![tactic(auto)]

#[cfg(test)]
mod books;
#[cfg(test)]
mod calls;
pub mod errand;
#[cfg(test)]
mod fixtures;
#[cfg(test)]
mod messages;
#[cfg(test)]
mod policies;
#[cfg(test)]
mod printing;
#[cfg(test)]
mod rows;
#[cfg(test)]
mod serving;
#[cfg(test)]
mod stores;
#[cfg(test)]
mod words;
