// Whole jobs: a day is reserved, worked over a source, and posted.
#![tactic(auto)]

pub mod days;
pub mod job;
pub mod refusal;
pub mod watch;
