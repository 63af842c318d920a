// What the program says in words: why a file is refused or is no book, why a run stops, what a warning means and how a day stands.
#![tactic(auto)]

pub mod broken;
pub mod marks;
mod names;
mod place;
pub mod printable;
mod quotes;
pub mod refused;
pub mod stopped;
pub mod table;
pub mod unposted;
mod values;
pub mod warned;
