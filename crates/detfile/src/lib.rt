// The determinant file: its line of names, its value lines, and the check of the whole.
#![tactic(auto)]

pub mod check;
pub mod columns;
pub mod fields;
pub mod key;
pub mod lines;
pub mod names;
pub mod refusal;
pub mod values;
