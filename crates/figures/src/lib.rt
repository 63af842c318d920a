// The parts of a line of text: where it is cut, what a field says, and the number that it writes.
#![tactic(auto)]

pub mod cutting;
pub mod marks;
pub mod numbers;
pub mod tokens;
