// How a stored number is written.
use notation::figure::Figure;
use std::test::Fail;
use terms::determinant::Determinant;

const WRITTEN: [(Determinant, i64, &str); 17] = [
    (Determinant::Owner, 0, "0"),
    (Determinant::Owner, 63, "63"),
    (Determinant::Owner, -63, "-63"),
    (Determinant::Rtspp, 0, "0.00"),
    (Determinant::Rtspp, 5, "0.05"),
    (Determinant::Rtspp, -5, "-0.05"),
    (Determinant::Rtspp, 99, "0.99"),
    (Determinant::Rtspp, 100, "1.00"),
    (Determinant::Rtspp, -12_345, "-123.45"),
    (Determinant::Hsl, 7, "0.007"),
    (Determinant::Hsl, 400_000, "400.000"),
    (Determinant::Hsl, -1_000_000_000, "-1000000.000"),
    (Determinant::Lrs, 1, "0.000001"),
    (Determinant::Lrs, 500_000, "0.500000"),
    (Determinant::Lrs, 1_000_000, "1.000000"),
    (Determinant::Owner, i64::MIN, "-9223372036854775808"),
    (Determinant::Lrs, i64::MIN, "-9223372036854.775808"),
];

#[test]
fn figures(rt: HostRuntime) -> Result<(), Fail> {
    for (determinant, stored, text) in &WRITTEN {
        let figure = Figure {
            stored: *stored,
            determinant: *determinant,
        };
        assert_eq!(rt; figure.to_string(rt.alloc())?.as_str(), *text);
    }
    Ok(())
}
