// Rules that round a quotient to a whole number: what every rule keeps, and the two that bills are worked by.
#![tactic(auto)]

pub mod laws;
mod quotient;
pub mod refusal;
pub mod rule;
pub mod rules;
