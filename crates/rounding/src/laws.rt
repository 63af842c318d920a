// What the two rules do at a tie, which the law of every rule leaves open: the check asks for the proofs here.
ghost use Rattle.std.specs.Prelude.{◌≡◌, ℕ, true, ℤ};
ghost use Rattle.rounding.specs.Rounds.{within, half_away, half_even};
ghost use Rattle.rounding.specs.Ties.{Tie, Further, EvenBeside};

// Where the quotient lies in the middle between two whole numbers, half away takes the one further from zero and half to even the even one.
pub fn tie_law()
    ensures away { (n : ℤ) (d : ℕ) → within n d ≡ true → Tie n d → Further n d (half_away n d) }
    ensures even { (n : ℤ) (d : ℕ) → within n d ≡ true → Tie n d → EvenBeside n d (half_even n d) }
{}
