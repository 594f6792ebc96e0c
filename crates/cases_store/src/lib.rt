// Arrays that are lent, and the stores: the words of values.
#![tactic(auto)]

pub mod buffers;
pub mod filled;
pub mod input_store;
pub mod store;
#[cfg(test)]
mod tests;
