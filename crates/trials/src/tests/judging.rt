// What an answer means for an interval.
use intervals::fault::Cause;
use intervals::judge::{Judgement, judge};
use terms::answer::Answer;
use terms::determinant::Determinant;

const STOPPED: Judgement = Judgement::Stopped(Cause::Missing);

// In the order of the numbers: what a missing determinant means.
const MISSING: [(Determinant, Judgement); 13] = [
    (Determinant::Owner, Judgement::Skipped),
    (Determinant::Vssvariol, Judgement::Skipped),
    (Determinant::Urllag, STOPPED),
    (Determinant::Urllead, STOPPED),
    (Determinant::Rtvar, Judgement::Taken(0)),
    (Determinant::Hsl, STOPPED),
    (Determinant::Lsl, STOPPED),
    (Determinant::Rtspp, STOPPED),
    (Determinant::Rthslaiec, Judgement::Warned),
    (Determinant::Rtvssaiec, Judgement::Warned),
    (Determinant::Rtmg, Judgement::Taken(0)),
    (Determinant::Lrs, Judgement::Taken(0)),
    (Determinant::Vssvarpr, STOPPED),
];

#[test]
fn missing(rt: HostRuntime) {
    for (d, judgement) in &MISSING {
        assert_eq!(rt; judge(*d, Answer::NoCut), *judgement);
        assert_eq!(rt; judge(*d, Answer::Null), *judgement);
    }
}

#[test]
fn range_edges(rt: HostRuntime) {
    let out = Judgement::Stopped(Cause::OutOfRange);
    for (d, _) in &MISSING {
        let (low, high) = (d.low(), d.high());
        assert_eq!(rt; judge(*d, Answer::Figure(low.wrapping_sub(1))), out);
        assert_eq!(rt; judge(*d, Answer::Figure(low)), Judgement::Taken(low));
        assert_eq!(rt; judge(*d, Answer::Figure(high)), Judgement::Taken(high));
        assert_eq!(rt; judge(*d, Answer::Figure(high.wrapping_add(1))), out);
    }
}

#[test]
fn causes(rt: HostRuntime) {
    assert_eq!(rt; Cause::Missing.number(), 14);
    assert_eq!(rt; Cause::OutOfRange.number(), 15);
    assert_eq!(rt; Cause::Shares.number(), 16);
}
