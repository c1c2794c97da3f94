//! What a store is: a fixed set of keys with one cell for each; and a store that stands on two others.
#![tactic(auto)]

mod cell;
mod lent;
mod split;
mod store;

pub use cell::Cell;
pub use lent::Lent;
pub use split::Split;
pub use store::Store;
