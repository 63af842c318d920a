// What the trials share: records and questions in one line each.
mod asks;
mod bills;
mod calls;
mod checks;
mod clearing;
mod damage;
mod days;
mod daytables;
mod decoding;
mod determinants;
mod fields;
mod fills;
mod imaging;
mod judging;
mod keeping;
mod layouts;
mod ledgers;
mod lines;
mod meters;
mod notations;
mod openings;
mod placebytes;
mod postings;
mod questions;
mod records;
mod refusals;
mod reopened;
mod rounds;
mod rows;
mod slips;
mod smallday;
mod stages;
mod stops;
mod warns;
mod watches;
mod wholejobs;
mod workings;

use sources::records::Record;
use std::process::Abort;
use terms::answer::Answer;
use terms::question::Question;
use terms::source::Source;

// A determinant, a unit, a day and an interval.
type Place = [u32; 4];

// Where a source is asked, and what it answers.
type Ask = (Place, Answer);

fn question(place: Place) -> Question {
    let [determinant, unit, day, interval] = place;
    Question {
        determinant,
        unit,
        day,
        interval,
    }
}

fn record(place: Place, number: i64) -> Record {
    let [determinant, unit, day, interval] = place;
    Record {
        determinant,
        unit,
        day,
        interval,
        number,
    }
}

fn check_asks<S: Source>(rt: &impl Abort, source: &S, asks: &[Ask]) {
    for (i, (place, answer)) in asks.iter().enumerate() {
        assert_eq!(rt; source.ask(question(*place)), *answer, "question {i}");
    }
}
