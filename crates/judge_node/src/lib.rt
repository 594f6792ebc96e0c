// A node: the states that it reaches, and the looks that it takes.
#![tactic(auto)]

mod children;
mod node;

pub use children::Nodes;
pub use node::Node;
