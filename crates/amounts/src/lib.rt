// Amounts by the formulas over whole numbers: what a Resource is paid, what an entity is charged, and what every lawful rounding rule
// makes of them.
#![tactic(auto)]

mod arithmetic;
pub mod formulas;
pub mod laws;
pub mod readings;
pub mod row;
mod settling;
