// The table of a day: a source that read a determinant file once.
ghost use Rattle.std.specs.Prelude.{◌≡◌, ℕ, ◌≤◌, ℤ, length, unsigned_abs};
ghost use Rattle.terms.specs.Limits.{most_stored};
ghost use Rattle.terms.specs.declared.answer.Answer.TheVariants.{Figure};
ghost use Rattle.daytable.specs.Cuts.{cut_count, tabled};

use crate::cut::Cut;
use crate::filling::fill;
use crate::place::place_of;
use crate::room::Room;
use detfile::refusal::FileRefusal;
use terms::answer::Answer;
use terms::question::Question;
use terms::source::Source;

// What a file says of one day, a cut for each determinant and unit, and the verdict on the file. It owns its memory, which is taken once.
#[derive(Drop)]
pub struct DayTable {
    verdict: Result<u32, FileRefusal>,
    day: u32,
    cuts: Vec<Cut>,
    ghost long: { length cuts.items ≡ cut_count },
    ghost sized: { (d u y i : ℕ) (z : ℤ) → tabled day cuts.items d u y i ≡ Figure z → unsigned_abs z ≤ most_stored },
}

impl DayTable {
    ghost use Rattle.std.specs.Prelude.{cond, ◌==◌};
    ghost use Rattle.terms.specs.declared.answer.Answer.TheVariants.{NoCut};
    ghost use Rattle.detfile.specs.Files.{judged, checked};
    ghost use Rattle.detfile.specs.Refusals.{told};
    ghost use Rattle.filesource.specs.Asks.{asked};

    // Checks a file and takes in what it says of the day, in one pass: each line is checked and taken in at once, and each number of the
    // day is written once, or 96 times where the line is for every interval. The bytes may be let go afterwards.
    pub fn build(room: Room, bytes: &[u8], day: u32) -> DayTable
        ensures answer { told result.verdict ≡ checked bytes.now }
        ensures verdict { result.verdict ≡ judged bytes.now }
        ensures table { (d u y i : ℕ) → tabled result.day result.cuts.items d u y i ≡ cond (y == day) (asked bytes.now d u y i) NoCut }
    {
        let Room { mut cuts } = room;
        let verdict = fill(&mut cuts, day, bytes);
        DayTable { verdict, day, cuts }
    }

    // How many value lines the file has, or why it is refused.
    pub fn verdict(&self) -> Result<u32, FileRefusal>
        ensures answer { told result ≡ told self.now.verdict }
        ensures value { result ≡ self.now.verdict }
    {
        self.verdict
    }
}

impl Source for DayTable {
    ghost use Rattle.daytable.specs.CutsKept.{tabled_laws};

    ghost table = { λ s d u y i. tabled s.day s.cuts.items d u y i };

    ghost laws = { tabled_laws (λ s. s.day) (λ s. s.cuts.items) (λ s. s.sized) };

    // Looks at one place, whatever the size of the file.
    fn ask(&self, question: Question) -> Answer
        ensures table { result ≡ tabled self.now.day self.now.cuts.items question.determinant question.unit question.day question.interval }
    {
        if !question.is_inside() || question.day != self.day {
            return Answer::NoCut;
        }
        self.cuts[place_of(question.determinant, question.unit)].at(question.interval)
    }
}
