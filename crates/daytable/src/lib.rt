// A determinant file as a source for one day, which reads the file once.
#![tactic(auto)]

mod cut;
mod filling;
mod place;
pub mod room;
pub mod table;
pub mod unbuilt;
