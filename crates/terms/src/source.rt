// Where determinants come from.
ghost use Rattle.std.specs.Prelude.{◌≡◌};
ghost use Rattle.terms.specs.Sources.{Table, SourceLaws};

use crate::answer::Answer;
use crate::question::Question;

pub trait Source {
    // The meaning of a source: its answer to every question.
    ghost table: { Self → Table };

    // The answer in the table; the source is as it was.
    fn ask(&self, question: Question) -> Answer
        ensures { result ≡ table self.now question.determinant question.unit question.day question.interval };

    // What every source proves of its table.
    ghost laws: { SourceLaws table };
}
