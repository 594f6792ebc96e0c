// What the rules of a sheet give, found along the chains of its index.
#![tactic(auto)]

mod numbers;
mod targets;

pub use numbers::{Book, Rules};
pub use targets::Found;
