// The table of determinants.
use std::test::Fail;
use terms::determinant::{Determinant, Missing, NoDeterminant};
use terms::question::LAST_DETERMINANT;

const NUMBERED: [(u32, Option<Determinant>); 7] = [
    (0, None),
    (1, Some(Determinant::Owner)),
    (8, Some(Determinant::Rtspp)),
    (12, Some(Determinant::Lrs)),
    (13, Some(Determinant::Vssvarpr)),
    (14, None),
    (u32::MAX, None),
];

const NAMED: [(&[u8], Option<Determinant>); 8] = [
    (b"OWNER", Some(Determinant::Owner)),
    (b"RTVSSAIEC", Some(Determinant::Rtvssaiec)),
    (b"VSSVARPR", Some(Determinant::Vssvarpr)),
    (b"", None),
    (b"owner", None),
    (b"OWNE", None),
    (b"OWNERS", None),
    (b" OWNER", None),
];

#[test]
fn finding(rt: HostRuntime) -> Result<(), Fail> {
    for (number, determinant) in &NUMBERED {
        assert_eq!(rt; Determinant::try_from(*number).ok(), *determinant);
    }
    for (name, determinant) in &NAMED {
        assert_eq!(rt; Determinant::try_from(*name).ok(), *determinant);
    }
    for number in 1..=LAST_DETERMINANT {
        let d = Determinant::try_from(number)?;
        assert_eq!(rt; u32::from(d), number);
        assert_eq!(rt; Determinant::try_from(d.name().as_bytes()), Ok(d));
    }
    Ok(())
}

// What a determinant is printed as.
const PRINTED: [(Determinant, &str); 3] = [
    (Determinant::Owner, "OWNER"),
    (Determinant::Rtvssaiec, "RTVSSAIEC"),
    (Determinant::Vssvarpr, "VSSVARPR"),
];

#[test]
fn printed(rt: HostRuntime) -> Result<(), Fail> {
    for (d, name) in &PRINTED {
        assert_eq!(rt; d.to_string(rt.alloc())?.as_str(), *name);
    }
    assert_eq!(rt;
        NoDeterminant.to_string(rt.alloc())?.as_str(),
        "no determinant has this number or name"
    );
    Ok(())
}

// Decimals, lowest and highest, of each determinant by its number.
pub const RANGES: [(Determinant, usize, i64, i64); 13] = [
    (Determinant::Owner, 0, 0, 63),
    (Determinant::Vssvariol, 3, -2_000_000, 2_000_000),
    (Determinant::Urllag, 3, 0, 2_000_000),
    (Determinant::Urllead, 3, -2_000_000, 0),
    (Determinant::Rtvar, 3, -1_000_000, 1_000_000),
    (Determinant::Hsl, 3, 0, 2_000_000),
    (Determinant::Lsl, 3, 0, 2_000_000),
    (Determinant::Rtspp, 2, -1_000_000, 1_000_000),
    (Determinant::Rthslaiec, 2, -1_000_000, 1_000_000),
    (Determinant::Rtvssaiec, 2, -1_000_000, 1_000_000),
    (Determinant::Rtmg, 3, -1_000_000, 1_000_000),
    (Determinant::Lrs, 6, 0, 1_000_000),
    (Determinant::Vssvarpr, 2, 0, 1_000_000),
];

const MISSING: [(Determinant, Missing); 6] = [
    (Determinant::Owner, Missing::Skip),
    (Determinant::Vssvariol, Missing::Skip),
    (Determinant::Urllag, Missing::Stop),
    (Determinant::Rtvar, Missing::Zero),
    (Determinant::Rthslaiec, Missing::Warning),
    (Determinant::Vssvarpr, Missing::Stop),
];

#[test]
fn rows(rt: HostRuntime) {
    for (d, decimals, low, high) in &RANGES {
        assert_eq!(rt; (d.decimals(), d.low(), d.high()), (*decimals, *low, *high));
    }
    for (d, missing) in &MISSING {
        assert_eq!(rt; d.missing(), *missing);
    }
}
