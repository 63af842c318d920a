// What a list of records answers.
use super::{Ask, check_asks, record};
use sources::records::RecordSource;
use terms::answer::Answer;

const ANSWERS: [Ask; 13] = [
    ([8, 2, 1, 7], Answer::Figure(30)),
    ([8, 2, 1, 8], Answer::Figure(40)),
    ([9, 2, 1, 7], Answer::Figure(60)),
    ([13, 127, 65_535, 96], Answer::Figure(-1_000_000_000)),
    ([13, 127, 65_535, 1], Answer::Null),
    ([8, 2, 2, 7], Answer::NoCut),
    ([8, 3, 1, 7], Answer::NoCut),
    ([10, 2, 1, 7], Answer::NoCut),
    ([0, 2, 1, 7], Answer::NoCut),
    ([14, 2, 1, 7], Answer::NoCut),
    ([8, 2, 1, 0], Answer::NoCut),
    ([8, 2, 1, 97], Answer::NoCut),
    ([13, 128, 65_535, 96], Answer::NoCut),
];

// The last record that covers the interval decides, and interval 0 covers all.
#[test]
fn last_record_decides(rt: HostRuntime) {
    let records = [
        record([8, 2, 1, 7], 10),
        record([8, 2, 1, 0], 40),
        record([8, 2, 1, 7], 30),
        record([9, 2, 1, 7], 50),
        record([9, 2, 1, 0], 60),
        record([13, 127, 65_535, 96], -1_000_000_000),
    ];
    check_asks(&rt, &RecordSource::new(&records), &ANSWERS);
}

const ONLY_SOUND: [Ask; 9] = [
    ([8, 2, 1, 7], Answer::Figure(5)),
    ([8, 2, 1, 8], Answer::Null),
    ([9, 2, 1, 7], Answer::NoCut),
    ([10, 2, 1, 7], Answer::NoCut),
    ([10, 2, 1, 97], Answer::NoCut),
    ([0, 2, 1, 7], Answer::NoCut),
    ([14, 2, 1, 7], Answer::NoCut),
    ([8, 128, 1, 7], Answer::NoCut),
    ([8, 2, 65_536, 7], Answer::NoCut),
];

// A record with a part out of its range is passed over.
#[test]
fn unsound_records(rt: HostRuntime) {
    let unsound = [
        record([8, 2, 1, 7], 1_000_000_001),
        record([8, 2, 1, 7], -1_000_000_001),
        record([9, 2, 1, 0], 1_000_000_001),
        record([9, 2, 1, 7], i64::MIN),
        record([10, 2, 1, 97], 5),
        record([0, 2, 1, 7], 5),
        record([14, 2, 1, 7], 5),
        record([8, 128, 1, 7], 5),
        record([8, 2, 65_536, 7], 5),
    ];
    for r in &unsound {
        assert!(rt; !r.is_sound());
        let records = [record([8, 2, 1, 7], 5), *r];
        check_asks(&rt, &RecordSource::new(&records), &ONLY_SOUND);
    }
}

#[test]
fn no_records(rt: HostRuntime) {
    check_asks(
        &rt,
        &RecordSource::new(&[]),
        &[([8, 2, 1, 7], Answer::NoCut)],
    );
}
