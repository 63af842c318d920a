// Books: the days that are reserved or billed, with what each entity's amounts for them are.
#![tactic(auto)]

pub mod account;
pub mod book;
pub mod calls;
pub mod flaw;
pub mod held;
pub mod laws;
mod moves;
pub mod opening;
pub mod place;
pub mod records;
pub mod refusal;
mod seats;
mod settling;
pub mod shelf;
pub mod store;
mod survey;
