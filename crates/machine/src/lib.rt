// Question 9, the soundness test, and the due segments of a round.
#![tactic(auto)]

pub mod dues;
pub mod soundness;
