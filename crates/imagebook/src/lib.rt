// A book in an image of bytes, which can be kept as a file.
#![tactic(auto)]

pub mod bytes;
pub mod clear;
pub mod fault;
mod form;
pub mod laws;
pub mod opening;
