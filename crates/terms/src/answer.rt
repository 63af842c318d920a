// What a source answers.
ghost use Rattle.std.specs.Prelude.{◌≡◌};
ghost use Rattle.terms.specs.Answers.{later};

// No cut: nothing is known of the determinant, unit and day. Null: a number is known, but for other intervals only. A figure is the
// stored number, the written figure times ten to the determinant's decimals.
#[derive(Clone, Copy, Debug, PartialEq, Eq)]
pub enum Answer {
    NoCut,
    Null,
    Figure(i64),
}

impl Answer {
    // This answer, after one more line or record has said `next`.
    pub fn after(self, next: Answer) -> Answer
        ensures { result ≡ later self next }
    {
        match next {
            Answer::NoCut => self,
            Answer::Figure(_) => next,
            Answer::Null => match self {
                Answer::Figure(_) => self,
                _ => next,
            },
        }
    }
}
