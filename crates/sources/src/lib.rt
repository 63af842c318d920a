// Sources that stand on a list of records or on another source.
#![tactic(auto)]

pub mod fill;
pub mod records;
