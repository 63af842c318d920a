// The two rounding rules, and the amounts that they give.
use amounts::formulas::charge;
use rounding::rule::Rounding;
use rounding::rules::{HalfAway, HalfEven, NoRule, Rule};
use std::process::Abort;
use std::test::Fail;
use worked::work::all_agree;

const MOST: i64 = 1_000_000_000_000_000_000;

// Dividend, divisor, and the result by half away and by half to even. Each holds for the other sign too.
const RESULTS: [(i64, u32, i64, i64); 31] = [
    (0, 1, 0, 0),
    (0, 1_000_000, 0, 0),
    (7, 1, 7, 7),
    (1, 2, 1, 0),
    (3, 2, 2, 2),
    (5, 2, 3, 2),
    (7, 2, 4, 4),
    (1, 3, 0, 0),
    (2, 3, 1, 1),
    (4, 3, 1, 1),
    (5, 3, 2, 2),
    (1_999, 4_000, 0, 0),
    (2_000, 4_000, 1, 0),
    (2_001, 4_000, 1, 1),
    (5_999, 4_000, 1, 1),
    (6_000, 4_000, 2, 2),
    (6_001, 4_000, 2, 2),
    (2_649_999, 4_000, 662, 662),
    (2_650_000, 4_000, 663, 662),
    (2_650_001, 4_000, 663, 663),
    (499_999, 1_000_000, 0, 0),
    (500_000, 1_000_000, 1, 0),
    (500_001, 1_000_000, 1, 1),
    (499_999, 999_999, 0, 0),
    (500_000, 999_999, 1, 1),
    (MOST, 1, MOST, MOST),
    (MOST, 2, 500_000_000_000_000_000, 500_000_000_000_000_000),
    (MOST, 3, 333_333_333_333_333_333, 333_333_333_333_333_333),
    (MOST, 1_000_000, 1_000_000_000_000, 1_000_000_000_000),
    (
        999_999_999_999_500_000,
        1_000_000,
        1_000_000_000_000,
        1_000_000_000_000,
    ),
    (
        999_999_999_998_500_000,
        1_000_000,
        999_999_999_999,
        999_999_999_998,
    ),
];

const REFUSED: [(i64, u32); 10] = [
    (1_000_000_000_000_000_001, 1),
    (-1_000_000_000_000_000_001, 1),
    (1_000_000_000_000_000_001, 0),
    (i64::MAX, 1_000_000),
    (i64::MIN, 1_000_000),
    (0, 0),
    (1, 0),
    (MOST, 1_000_001),
    (0, 1_000_001),
    (1, u32::MAX),
];

// The result, or the number of the answer.
fn told<R: Rounding>(rule: &R, dividend: i64, divisor: u32) -> Result<i64, u32> {
    rule.round(dividend, divisor)
        .map_err(|refusal| refusal.number())
}

// Whether a result times its divisor lies at most half the divisor away from the dividend.
fn is_near(dividend: i64, divisor: u32, res: i64) -> bool {
    let off = res.wrapping_mul(i64::from(divisor)).wrapping_sub(dividend);
    off.unsigned_abs() <= u64::from(divisor) / 2
}

// A result, and that for the other sign.
fn check_result<R: Rounding>(rt: &impl Abort, rule: &R, n: i64, d: u32, res: i64) {
    for (n, res) in [(n, res), (n.wrapping_neg(), res.wrapping_neg())] {
        assert!(rt; is_near(n, d, res), "{n} by {d}");
        assert_eq!(rt; told(rule, n, d), Ok(res), "{n} by {d}");
    }
}

fn check_results<A: Rounding, E: Rounding>(rt: &impl Abort, away: &A, even: &E) {
    for (n, d, by_away, by_even) in &RESULTS {
        check_result(rt, away, *n, *d, *by_away);
        check_result(rt, even, *n, *d, *by_even);
    }
}

fn check_refused<A: Rounding, E: Rounding>(rt: &impl Abort, away: &A, even: &E) {
    for (n, d) in &REFUSED {
        assert_eq!(rt; told(away, *n, *d), Err(6));
        assert_eq!(rt; told(even, *n, *d), Err(6));
    }
}

#[test]
fn results(rt: HostRuntime) {
    check_results(&rt, &HalfAway, &HalfEven);
}

#[test]
fn refused(rt: HostRuntime) {
    check_refused(&rt, &HalfAway, &HalfEven);
}

// The rules that are chosen while a program runs give what the two types give.
#[test]
fn chosen_results(rt: HostRuntime) {
    check_results(&rt, &Rule::Away, &Rule::Even);
}

#[test]
fn refused_by_chosen(rt: HostRuntime) {
    check_refused(&rt, &Rule::Away, &Rule::Even);
}

const WORDS: [(&str, Result<Rule, NoRule>); 6] = [
    ("away", Ok(Rule::Away)),
    ("even", Ok(Rule::Even)),
    ("", Err(NoRule)),
    ("Away", Err(NoRule)),
    ("evens", Err(NoRule)),
    (" even", Err(NoRule)),
];

#[test]
fn words_of_rules(rt: HostRuntime) -> Result<(), Fail> {
    for (word, rule) in &WORDS {
        assert_eq!(rt; word.parse::<Rule>(), *rule, "{word}");
    }
    assert_eq!(rt;
        NoRule.to_string(rt.alloc())?.as_str(),
        "no rounding rule; allowed are away and even"
    );
    Ok(())
}

#[test]
fn worked_by_hand(rt: HostRuntime) {
    assert!(rt; all_agree());
}

// All payments, a share, and the charge by half away.
const CHARGES: [(i64, u32, Option<i64>); 12] = [
    (0, 0, Some(0)),
    (-1, 499_999, Some(0)),
    (-1, 500_000, Some(1)),
    (1, 500_000, Some(-1)),
    (-3, 500_000, Some(2)),
    (-30_458, 1_000_000, Some(30_458)),
    (-30_458, 1_000_001, None),
    (-1_000_000_000_000, 1_000_000, Some(1_000_000_000_000)),
    (-1_000_000_000_001, 1_000_000, None),
    (1_000_000_000_000, 1, Some(-1_000_000)),
    (1_000_000_000_001, 0, None),
    (i64::MIN, 0, None),
];

#[test]
fn charges(rt: HostRuntime) {
    for (paid, share, amount) in &CHARGES {
        assert_eq!(rt;
            charge(&HalfAway, *paid, *share),
            *amount,
            "{paid} at {share}"
        );
    }
}
