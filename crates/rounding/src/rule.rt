// What a rounding rule is.
ghost use Rattle.std.specs.Prelude.{◌≡◌, ℕ, ℤ, if◌then◌else◌, Ok, Err};
ghost use Rattle.rounding.specs.declared.refusal.RuleRefusal.TheVariants.{OutOfRange};
ghost use Rattle.rounding.specs.Refusals.{told, rounding};
ghost use Rattle.rounding.specs.Rounds.{within, Lawful};

use crate::refusal::RuleRefusal;

// The most that a dividend may lie away from zero.
pub const MOST_DIVIDEND: u64 = 1_000_000_000_000_000_000;

pub const MOST_DIVISOR: u32 = 1_000_000;

pub trait Rounding {
    // The meaning of a rule: its result for every dividend and divisor.
    ghost rounded: { Self → ℤ → ℕ → ℤ };

    // The result in the table, so that equal questions get equal answers.
    fn round(&self, dividend: i64, divisor: u32) -> Result<i64, RuleRefusal>
        ensures answer { told result ≡ rounding (rounded self.now) dividend divisor }
        ensures value { result ≡ (if within dividend divisor then Ok (rounded self.now dividend divisor) else Err OutOfRange) };

    // A result times its divisor lies at most half the divisor away from the dividend. Code above a rule uses no more of it.
    ghost near: { (s : Self) → Lawful (rounded s) };
}

// Whether a rule takes them.
pub fn in_range(dividend: i64, divisor: u32) -> bool
    ensures { result ≡ within dividend divisor }
{
    dividend.unsigned_abs() <= MOST_DIVIDEND && (1..=MOST_DIVISOR).contains(&divisor)
}
