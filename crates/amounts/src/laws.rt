// What holds of every interval and every run: the check asks for the proofs here.
ghost use Rattle.std.specs.Prelude.{◌≡◌, ℕ, ◌*◌, ◌≤◌, ℤ, ◌+ℤ◌, unsigned_abs};
ghost use Rattle.rounding.specs.Rounds.{Lawful};
ghost use Rattle.terms.specs.Sources.{Table};
ghost use Rattle.amounts.specs.Sums.{sum_to};
ghost use Rattle.amounts.specs.Workings.{paid, amounts_at, charged_shares};
ghost use Rattle.amounts.specs.Tables.{Judged, working};
ghost use Rattle.amounts.specs.Triples.{net};
ghost use Rattle.amounts.specs.Traces.{Trace, Accepted, amount, shares};

// An accepted interval's payments all reach an entity, and its charges miss them by at most half a cent for each charged share.
pub fn interval_law()
    ensures credited { (rounded : ℤ → ℕ → ℤ) (t : Table) (y i : ℕ) → Lawful rounded → Judged t y i 64 128 → sum_to 64 (λ q. (amounts_at rounded 128 (working t y i rounded) q).reactive +ℤ (amounts_at rounded 128 (working t y i rounded) q).held) ≡ paid 128 (working t y i rounded) }
    ensures balanced { (rounded : ℤ → ℕ → ℤ) (t : Table) (y i : ℕ) → Lawful rounded → Judged t y i 64 128 → 2 * unsigned_abs (sum_to 64 (λ q. net (amounts_at rounded 128 (working t y i rounded) q))) ≤ charged_shares 64 (working t y i rounded) }
{}

// The same of a run: its amounts, doubled and added up, lie no further from zero than its charged shares.
pub fn trace_law()
    ensures { (t : Trace) → Accepted t → 2 * unsigned_abs (sum_to 64 (λ q. net (amount t q))) ≤ shares t }
{}
