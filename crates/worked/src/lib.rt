// Worked by hand: a table of what each row is given and what must come of it. The formulas give it, and so does the code.
#![tactic(auto)]

pub mod laws;
pub mod row;
pub mod table;
pub mod work;
