// One interval: what is asked and in which order, what a missing figure does, what is paid and what is charged.
#![tactic(auto)]

mod asking;
mod charges;
mod charging;
pub mod fault;
pub mod interval;
pub mod judge;
pub mod laws;
mod notes;
mod paying;
mod shares;
mod tally;
pub mod warning;
