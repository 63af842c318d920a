#![tactic(auto)]

// Trials of the determinant file, of the sources, of the amounts and of runs: every rule at its edges.
#[cfg(test)]
mod tests;
