// A source over a list of records.
ghost use Rattle.std.specs.Prelude.{◌≡◌, true};
ghost use Rattle.terms.specs.Limits.{inside};
ghost use Rattle.terms.specs.Decisions.{decide, Decision};
ghost use Rattle.terms.specs.declared.answer.Answer.TheVariants.{NoCut};
ghost use Rattle.sources.specs.Records.{sound_record, record_says, recorded};
ghost use Rattle.sources.specs.RecordsKept.{recorded_laws};

use terms::answer::Answer;
use terms::question::{
    LAST_DAY, LAST_DETERMINANT, LAST_INTERVAL, LAST_UNIT, MOST_STORED, Question,
};
use terms::source::Source;

// A number for one interval of a day, or for every interval where `interval` is 0.
#[derive(Clone, Copy, Debug, PartialEq, Eq)]
pub struct Record {
    pub determinant: u32,
    pub unit: u32,
    pub day: u32,
    pub interval: u32,
    pub number: i64,
}

impl Record {
    // Whether each part lies in its range; a record of which one does not is passed over.
    pub fn is_sound(&self) -> bool
        ensures { result ≡ sound_record self.now }
    {
        (1..=LAST_DETERMINANT).contains(&self.determinant)
            && self.unit <= LAST_UNIT
            && self.day <= LAST_DAY
            && self.interval <= LAST_INTERVAL
            && self.number.unsigned_abs() <= MOST_STORED
    }

    // What this record alone says of a question.
    pub fn says(&self, question: Question) -> Answer
        ensures { result ≡ record_says question.determinant question.unit question.day question.interval self.now }
    {
        let about = self.determinant == question.determinant
            && self.unit == question.unit
            && self.day == question.day;
        if !about || !self.is_sound() {
            Answer::NoCut
        } else if self.interval == 0 || self.interval == question.interval {
            Answer::Figure(self.number)
        } else {
            Answer::Null
        }
    }
}

#[derive(Clone, Copy)]
pub struct RecordSource<'a> {
    records: &'a [Record],
}

impl<'a> RecordSource<'a> {
    pub fn new(records: &'a [Record]) -> RecordSource<'a>
        ensures { result.records.now ≡ records.now }
    {
        RecordSource { records }
    }

    // What the records come to, one after the other.
    fn decided(&self, question: Question) -> Answer
        ensures { result ≡ decide (record_says question.determinant question.unit question.day question.interval) NoCut self.now.records.now }
    {
        self.records.iter().fold(Answer::NoCut, |answer, record| {
            answer.after(record.says(question))
        })
    }
}

impl<'a> Source for RecordSource<'a> {
    ghost table = { λ s d u y i. recorded s.records.now d u y i };

    ghost laws = { recorded_laws (λ s. s.records.now) };

    fn ask(&self, question: Question) -> Answer
        ensures table { result ≡ recorded self.now.records.now question.determinant question.unit question.day question.interval }
        ensures law { inside question.determinant question.unit question.day question.interval ≡ true → Decision (record_says question.determinant question.unit question.day question.interval) self.now.records.now result }
    {
        if !question.is_inside() {
            return Answer::NoCut;
        }
        self.decided(question)
    }
}
