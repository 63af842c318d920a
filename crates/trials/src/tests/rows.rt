// Rows of amounts.
use amounts::formulas::Payments;
use amounts::row::Amounts;

const FIRST: Amounts = Amounts {
    reactive: -795,
    held: -29_000,
    load: 7_615,
};

const SECOND: Amounts = Amounts {
    reactive: 1,
    held: 30_000,
    load: -7_616,
};

const BOTH: Amounts = Amounts {
    reactive: -794,
    held: 1_000,
    load: -1,
};

const NOTHING: Amounts = Amounts {
    reactive: 0,
    held: 0,
    load: 0,
};

#[test]
fn sums(rt: HostRuntime) {
    assert_eq!(rt; FIRST + SECOND, BOTH);
    assert_eq!(rt; SECOND + FIRST, BOTH);
    assert_eq!(rt; FIRST + Amounts::default(), FIRST);
    assert_eq!(rt; Amounts::default(), NOTHING);
}

#[test]
fn of_payments(rt: HostRuntime) {
    let payments = Payments {
        reactive: -795,
        held: -29_000,
    };
    assert_eq!(rt; Amounts::from(payments), Amounts { load: 0, ..FIRST });
}
