// Zero for null, over records and over a file.
use super::{Ask, check_asks, record};
use filesource::source::FileSource;
use sources::fill::{ZeroFill, zero_filled};
use sources::records::RecordSource;
use terms::answer::Answer;

// Numbers for interval 7 alone, of the determinants 1 to 5.
const FILLED: [Ask; 15] = [
    ([1, 2, 1, 7], Answer::Figure(10)),
    ([2, 2, 1, 7], Answer::Figure(20)),
    ([3, 2, 1, 7], Answer::Figure(30)),
    ([4, 2, 1, 7], Answer::Figure(-40)),
    ([5, 2, 1, 7], Answer::Figure(50)),
    ([1, 2, 1, 8], Answer::Null),
    ([2, 2, 1, 8], Answer::Figure(0)),
    ([3, 2, 1, 8], Answer::Figure(0)),
    ([4, 2, 1, 8], Answer::Figure(0)),
    ([5, 2, 1, 8], Answer::Null),
    ([2, 3, 1, 8], Answer::NoCut),
    ([3, 2, 2, 8], Answer::NoCut),
    ([2, 2, 1, 0], Answer::NoCut),
    ([4, 2, 1, 97], Answer::NoCut),
    ([6, 2, 1, 8], Answer::NoCut),
];

#[test]
fn over_records(rt: HostRuntime) {
    let records = [
        record([1, 2, 1, 7], 10),
        record([2, 2, 1, 7], 20),
        record([3, 2, 1, 7], 30),
        record([4, 2, 1, 7], -40),
        record([5, 2, 1, 7], 50),
    ];
    let below = RecordSource::new(&records);
    check_asks(&rt, &ZeroFill { below }, &FILLED);
}

#[test]
fn over_a_file(rt: HostRuntime) {
    let below = FileSource::new(
        b"DAY UNIT INT OWNER VSSVARIOL URLLAG URLLEAD RTVAR\n1 2 7 10 0.02 0.030 -0.04 0.05\n",
    );
    check_asks(&rt, &ZeroFill { below }, &FILLED);
}

// A dash for the interval is null all the same, and a column of dashes has no cut to fill.
const DASHES: [Ask; 2] = [
    ([3, 2, 1, 8], Answer::Figure(0)),
    ([4, 2, 1, 8], Answer::NoCut),
];

#[test]
fn over_dashes(rt: HostRuntime) {
    let below = FileSource::new(b"DAY UNIT INT URLLAG URLLEAD\n1 2 7 5 -\n1 2 8 - -\n");
    check_asks(&rt, &ZeroFill { below }, &DASHES);
}

#[test]
fn each_determinant(rt: HostRuntime) {
    for d in 0..16 {
        let filled = match d {
            2..=4 => Answer::Figure(0),
            _ => Answer::Null,
        };
        assert_eq!(rt; zero_filled(d, Answer::Null), filled);
        assert_eq!(rt; zero_filled(d, Answer::NoCut), Answer::NoCut);
        assert_eq!(rt; zero_filled(d, Answer::Figure(7)), Answer::Figure(7));
    }
}
