// A determinant file as a source.
#![tactic(auto)]

pub mod asking;
pub mod source;
