// Lines as they are written: values, and calls by their names.
#![tactic(auto)]

pub mod calls;
pub mod contents;
pub mod values;
