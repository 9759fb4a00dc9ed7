// A round in code: what the devices' answers do to jobs and lent memory, which jobs start, and the counts when it closes.
#![tactic(auto)]

pub mod halves;
