// What the table of a day answers.
use super::{Ask, check_asks, question};
use daytable::room::Room;
use daytable::table::DayTable;
use daytable::unbuilt::Unbuilt;
use filesource::source::FileSource;
use std::alloc::Global;
use std::process::Abort;
use std::test::Fail;
use terms::answer::Answer;
use terms::source::Source;

// Two days; a star before a number and after one, a dash after a number, the last unit and the last interval.
const FILE: &[u8] =
    b"DAY UNIT INT RTSPP OWNER LRS\n1 2 * 1.5 - -\n1 2 7 2.65 63 -\n2 2 7 9 9 1\n1 2 7 - - 0.5\n1 127 96 -10000000 - -\n1 3 8 4 - -\n1 3 * 5 - -\n";

const FIRST_DAY: [Ask; 13] = [
    ([8, 2, 1, 1], Answer::Figure(150)),
    ([8, 2, 1, 7], Answer::Figure(265)),
    ([8, 2, 1, 96], Answer::Figure(150)),
    ([1, 2, 1, 7], Answer::Figure(63)),
    ([1, 2, 1, 8], Answer::Null),
    ([12, 2, 1, 7], Answer::Figure(500_000)),
    ([8, 127, 1, 96], Answer::Figure(-1_000_000_000)),
    ([8, 127, 1, 95], Answer::Null),
    ([1, 127, 1, 96], Answer::NoCut),
    ([8, 3, 1, 8], Answer::Figure(500)),
    ([8, 3, 1, 9], Answer::Figure(500)),
    ([8, 2, 2, 7], Answer::NoCut),
    ([8, 4, 1, 7], Answer::NoCut),
];

const SECOND_DAY: [Ask; 4] = [
    ([8, 2, 2, 7], Answer::Figure(900)),
    ([1, 2, 2, 7], Answer::Figure(9)),
    ([12, 2, 2, 8], Answer::Null),
    ([8, 2, 1, 7], Answer::NoCut),
];

fn check_table(rt: &impl Abort, heap: Global, day: u32, asks: &[Ask]) -> Result<(), Fail> {
    let table = DayTable::build(Room::new(heap)?, FILE, day);
    assert_eq!(rt; table.verdict().ok(), Some(7));
    check_asks(rt, &table, asks);
    Ok(())
}

#[test]
fn tables_of_days(rt: HostRuntime) -> Result<(), Fail> {
    check_table(&rt, rt.alloc(), 1, &FIRST_DAY)?;
    check_table(&rt, rt.alloc(), 2, &SECOND_DAY)
}

// All questions inside the ranges about one day, and those at their edges.
#[test]
fn as_the_file(rt: HostRuntime) -> Result<(), Fail> {
    let file = FileSource::new(FILE);
    let table = DayTable::build(Room::new(rt.alloc())?, FILE, 1);
    for determinant in 0..=14 {
        for unit in 0..=128 {
            for interval in 0..=97 {
                let asked = question([determinant, unit, 1, interval]);
                assert_eq!(rt; table.ask(asked), file.ask(asked));
            }
        }
    }
    Ok(())
}

#[test]
fn refused_table(rt: HostRuntime) -> Result<(), Fail> {
    let table = DayTable::build(
        Room::new(rt.alloc())?,
        b"DAY UNIT INT RTSPP\n1 2 7 2.65\n1 2 8 2.650\n",
        1,
    );
    let refusal = table.verdict().err();
    assert_eq!(rt;
        refusal.map(|refusal| (refusal.number(), refusal.line())),
        Some((4, 3))
    );
    check_asks(&rt, &table, &[([8, 2, 1, 7], Answer::NoCut)]);
    Ok(())
}

#[test]
fn no_memory(rt: HostRuntime) -> Result<(), Fail> {
    assert_eq!(rt;
        Unbuilt::Memory.to_string(rt.alloc())?.as_str(),
        "no memory for the table of a day"
    );
    Ok(())
}
