// The ranges of a question, and how answers follow one another.
use super::{Place, question};
use std::test::Fail;
use terms::answer::Answer;
use terms::determinant::Determinant;
use terms::question::{Question, Slot};

const INSIDE: [(Place, bool); 9] = [
    ([1, 0, 0, 1], true),
    ([13, 127, 65_535, 96], true),
    ([0, 0, 0, 1], false),
    ([14, 0, 0, 1], false),
    ([1, 128, 0, 1], false),
    ([1, 0, 65_536, 1], false),
    ([1, 0, 0, 0], false),
    ([1, 0, 0, 97], false),
    ([u32::MAX, u32::MAX, u32::MAX, u32::MAX], false),
];

#[test]
fn ranges(rt: HostRuntime) {
    for (place, inside) in &INSIDE {
        assert_eq!(rt; question(*place).is_inside(), *inside);
    }
}

// Questions are put together inside the ranges and past them.
const ASKED: [Place; 4] = [
    [1, 0, 0, 1],
    [8, 2, 3, 4],
    [13, 127, 65_535, 96],
    [12, 128, 65_536, 97],
];

#[test]
fn about(rt: HostRuntime) -> Result<(), Fail> {
    for place in &ASKED {
        let [number, unit, day, interval] = *place;
        let determinant = Determinant::try_from(number)?;
        let about = Question::about(determinant, unit, Slot { day, interval });
        assert_eq!(rt; about, question(*place));
    }
    Ok(())
}

// An answer, the next one, and what the two come to.
const AFTER: [[Answer; 3]; 9] = [
    [Answer::NoCut, Answer::NoCut, Answer::NoCut],
    [Answer::NoCut, Answer::Null, Answer::Null],
    [Answer::NoCut, Answer::Figure(1), Answer::Figure(1)],
    [Answer::Null, Answer::NoCut, Answer::Null],
    [Answer::Null, Answer::Null, Answer::Null],
    [Answer::Null, Answer::Figure(1), Answer::Figure(1)],
    [Answer::Figure(2), Answer::NoCut, Answer::Figure(2)],
    [Answer::Figure(2), Answer::Null, Answer::Figure(2)],
    [Answer::Figure(2), Answer::Figure(1), Answer::Figure(1)],
];

#[test]
fn later_answers(rt: HostRuntime) {
    for [first, next, both] in &AFTER {
        assert_eq!(rt; first.after(*next), *both);
    }
}
