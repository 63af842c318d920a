// Why a rule is not applied.
ghost use Rattle.std.specs.Prelude.{◌≡◌};
ghost use Rattle.rounding.specs.Refusals.{number_of};

#[derive(Clone, Copy, Debug, PartialEq, Eq)]
pub enum RuleRefusal {
    // The dividend or the divisor is not one that a rule takes.
    OutOfRange,
}

impl RuleRefusal {
    // The number of the answer.
    pub fn number(self) -> u32
        ensures { result ≡ number_of self }
    {
        match self {
            RuleRefusal::OutOfRange => 6,
        }
    }
}
