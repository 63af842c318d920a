// The terms of the market that every layer shares: bounds, determinants, questions and answers, and what a source is.
#![tactic(auto)]

pub mod answer;
pub mod determinant;
pub mod laws;
pub mod question;
pub mod source;
