// Zero where a source has a cut but no number for the interval.
ghost use Rattle.std.specs.Prelude.{◌≡◌};
ghost use Rattle.sources.specs.Fills.{filled};
ghost use Rattle.sources.specs.FillsKept.{filled_laws};

use terms::answer::Answer;
use terms::determinant::Determinant;
use terms::question::Question;
use terms::source::Source;

// The answer where null counts as zero for VSSVARIOL, URLLAG and URLLEAD.
pub fn zero_filled(determinant: u32, answer: Answer) -> Answer
    ensures { result ≡ filled determinant answer }
{
    match (Determinant::try_from(determinant), answer) {
        (Ok(Determinant::Vssvariol | Determinant::Urllag | Determinant::Urllead), Answer::Null) =>
            Answer::Figure(0),
        _ => answer,
    }
}

#[derive(Drop)]
pub struct ZeroFill<S> {
    pub below: S,
}

impl<S: Source> Source for ZeroFill<S> {
    ghost table = { λ s d u y i. filled d (S.Source.table s.below d u y i) };

    ghost laws = { filled_laws (λ s. s.below) S.Source.laws };

    fn ask(&self, question: Question) -> Answer
        ensures table { result ≡ filled question.determinant (S.Source.table self.now.below question.determinant question.unit question.day question.interval) }
    {
        zero_filled(question.determinant, self.below.ask(question))
    }
}
