// A determinant file that was checked, as a source for one day.
ghost use Rattle.std.specs.Prelude.{◌≡◌, ℕ};
ghost use Rattle.detfile.specs.Files.{checked};
ghost use Rattle.detfile.specs.Refusals.{told};
ghost use Rattle.filesource.specs.Asks.{asked};

use crate::dayfile::DayFile;
use daytable::room::Room;
use daytable::table::DayTable;
use detfile::refusal::FileRefusal;
use filesource::source::FileSource;
use sources::fill::zero_filled;
use terms::answer::Answer;
use terms::question::Question;
use terms::source::Source;

// The file, the verdict on it, and a source that answers what the file says of its day. Of another day the source may know nothing.
#[derive(Drop)]
pub struct Reading<'a, S: Source> {
    pub file: DayFile<'a>,
    verdict: Result<u32, FileRefusal>,
    source: S,
    ghost checked: { told verdict ≡ checked file.bytes.now },
    ghost answers: { (d u i : ℕ) → S.table source d u file.day i ≡ asked file.bytes.now d u file.day i },
}

impl<'a> Reading<'a, FileSource<'a>> {
    // Checks the file; each question will go to its bytes.
    pub fn direct(file: DayFile<'a>) -> Reading<'a, FileSource<'a>>
        ensures { result.file ≡ file.entry }
    {
        let source = FileSource::new(file.bytes);
        Reading {
            file,
            verdict: source.verdict(),
            source,
        }
    }
}

impl<'a> Reading<'a, DayTable> {
    // Checks the file and takes in what it says of the day, in one pass.
    pub fn tabled(room: Room, file: DayFile<'a>) -> Reading<'a, DayTable>
        ensures { result.file ≡ file.entry }
    {
        let source = DayTable::build(room, file.bytes, file.day);
        Reading {
            file,
            verdict: source.verdict(),
            source,
        }
    }
}

impl<S: Source> Reading<'_, S> {
    // How many value lines the file has, or why it is refused.
    pub fn verdict(&self) -> Result<u32, FileRefusal>
        ensures { told result ≡ checked self.now.file.bytes.now }
    {
        self.verdict
    }
}

impl<S: Source> Source for Reading<'_, S> {
    ghost use Rattle.settlement.specs.Tables.{chosen};
    ghost use Rattle.settlement.specs.TablesKept.{chosen_laws};

    ghost table = { λ r. chosen r.file.fill (S.table r.source) };

    ghost laws = { chosen_laws (λ r. r.file.fill) (λ r. r.source) S.laws };

    // With zero for null, where the file is to be read so.
    fn ask(&self, question: Question) -> Answer {
        let answer = self.source.ask(question);
        if self.file.fill {
            zero_filled(question.determinant, answer)
        } else {
            answer
        }
    }
}
