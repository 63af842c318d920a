// From the bytes of a determinant file to a day's totals, and from the bytes of a book to the book with the day posted.
#![tactic(auto)]

pub mod bills;
pub mod dayfile;
pub mod laws;
pub mod posting;
pub mod reading;
pub mod refusal;
pub mod working;
