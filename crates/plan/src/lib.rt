// A plan: its records, how they are read from bytes, and what the questions of a load ask of them one by one.
#![tactic(auto)]

pub mod checks;
mod number;
pub mod records;
pub mod scan;
pub mod wear;
