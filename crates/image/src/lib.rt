// How a place of a book is written as bytes.
#![tactic(auto)]

pub mod fault;
pub mod laws;
pub mod read;
pub mod write;
