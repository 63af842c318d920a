// A run works the intervals of one day; closed, it is a sheet.
#![tactic(auto)]

pub mod day;
mod entering;
pub mod laws;
pub mod opening;
pub mod refusal;
pub mod run;
pub mod sheet;
pub mod sums;
pub mod work;
pub mod working;
