// How numbers are written.
#![tactic(auto)]

pub mod figure;
