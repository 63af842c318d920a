// The accounts of a book: reserving a day gives a slip, and posting a sheet under the slip bills what the book did not have yet.
#![tactic(auto)]

pub mod laws;
pub mod posting;
pub mod refusal;
pub mod reservation;
mod settling;
pub mod slip;
