// A small day that runs are tried over: two Resources, three shares of the load and a price, the same in every interval.
//
// Resource 0: min(120,000, 4 * 28,000) - 100,000 = 12,000, and 265 * 12,000 / 4,000 = 795; 5,000 * (400,000 - 320,000) less
// 3,000 * 300,000 - 2,800 * 220,000 is 116,000,000, and a 4,000th of it 29,000.
// Resource 1: -80,000 - max(-90,000, 4 * -25,000) = 10,000, and 265 * 10,000 / 4,000 = 662.5, so 663 away from zero and 662 to even;
// 3,000 * (200,000 - 160,000) less 4,000 * 150,000 - 3,500 * 110,000 is below zero.
// Together 30,458, of which a quarter is 7,614.5 and the half 15,229. To even: 30,457, 7,614.25 and 15,228.5.
use super::record;
use amounts::row::Amounts;
use intervals::warning::Warning;
use rounding::rule::Rounding;
use rounding::rules::HalfAway;
use runs::day::RunDay;
use runs::refusal::IntervalRefusal;
use runs::run::Run;
use runs::sheet::Sheet;
use runs::working::Worked;
use sources::records::{Record, RecordSource};
use std::process::Abort;
use std::test::Fail;
use terms::determinant::Determinant;

pub const DAY: u32 = 9;

// The numbers of the Resources.
const FIRST: [(Determinant, i64); 11] = [
    (Determinant::Owner, 0),
    (Determinant::Vssvariol, 120_000),
    (Determinant::Urllag, 100_000),
    (Determinant::Urllead, -100_000),
    (Determinant::Rtvar, 28_000),
    (Determinant::Hsl, 400_000),
    (Determinant::Lsl, 100_000),
    (Determinant::Rtspp, 5_000),
    (Determinant::Rthslaiec, 3_000),
    (Determinant::Rtvssaiec, 2_800),
    (Determinant::Rtmg, 80_000),
];

const SECOND: [(Determinant, i64); 11] = [
    (Determinant::Owner, 1),
    (Determinant::Vssvariol, -90_000),
    (Determinant::Urllag, 80_000),
    (Determinant::Urllead, -80_000),
    (Determinant::Rtvar, -25_000),
    (Determinant::Hsl, 200_000),
    (Determinant::Lsl, 50_000),
    (Determinant::Rtspp, 3_000),
    (Determinant::Rthslaiec, 4_000),
    (Determinant::Rtvssaiec, 3_500),
    (Determinant::Rtmg, 40_000),
];

// What is told of each interval.
pub const EACH: Worked = Worked {
    warnings: 0,
    paid: -30_458,
    charges: 30_459,
    charged: 3,
};

// A row that no run writes.
pub const BLANK: Warning = Warning {
    determinant: 77,
    resource: 777,
    day: 77,
    hour: 77,
};

// A number for every interval of the day.
pub fn all_day(determinant: Determinant, unit: u32, number: i64) -> Record {
    record([determinant.into(), unit, DAY, 0], number)
}

// Numbers of a Resource, a row for each.
pub fn write_resource(rows: &mut [Record], unit: u32, numbers: &[(Determinant, i64)]) {
    for (row, (determinant, number)) in rows.iter_mut().zip(numbers) {
        *row = all_day(*determinant, unit, *number);
    }
}

// The records of a day. The last is one more price, for a trial to put another in its place.
#[derive(Clone, Copy)]
pub struct Day {
    records: [Record; 27],
}

impl Day {
    pub fn small() -> Day {
        let mut records = [all_day(Determinant::Vssvarpr, 0, 265); 27];
        write_resource(&mut records[..11], 0, &FIRST);
        write_resource(&mut records[11..22], 1, &SECOND);
        records[22] = all_day(Determinant::Lrs, 0, 250_000);
        records[23] = all_day(Determinant::Lrs, 1, 250_000);
        records[24] = all_day(Determinant::Lrs, 63, 500_000);
        Day { records }
    }

    pub fn source(&self) -> RecordSource<'_> {
        RecordSource::new(&self.records)
    }

    // Puts a record in the place of each of a determinant and unit.
    fn replace(&mut self, determinant: Determinant, unit: u32, other: Record) {
        for record in &mut self.records {
            if record.determinant == u32::from(determinant) && record.unit == unit {
                *record = other;
            }
        }
    }

    // The day with another number of a determinant and unit, where it has one.
    pub fn changed(mut self, determinant: Determinant, unit: u32, number: i64) -> Day {
        self.replace(determinant, unit, all_day(determinant, unit, number));
        self
    }

    // The day without the numbers of a determinant and unit.
    pub fn without(mut self, determinant: Determinant, unit: u32) -> Day {
        self.replace(determinant, unit, record([0, 0, 0, 0], 0));
        self
    }

    // The day with one number more or another.
    pub fn with(mut self, determinant: Determinant, unit: u32, number: i64) -> Day {
        self.records[26] = all_day(determinant, unit, number);
        self
    }

    // The day with Resource 1 as Resource 127.
    pub fn moved(mut self) -> Day {
        for record in &mut self.records {
            if record.determinant <= 11 && record.unit == 1 {
                record.unit = 127;
            }
        }
        self
    }
}

pub type Told = Result<Worked, IntervalRefusal>;

// The number of an answer, 0 where the interval is accepted.
pub fn number(told: Told) -> u32 {
    told.err().map_or(0, |refusal| refusal.number())
}

pub fn open<R: Rounding + Drop>(rule: R) -> Result<Run<R>, Fail> {
    Ok(Run::open(RunDay::try_from(DAY)?, rule))
}

// Works the first intervals of the small day.
pub fn check_intervals(rt: &impl Abort, run: &mut Run<HalfAway>, last: u32) {
    let day = Day::small();
    for interval in 1..=last {
        let told = run.interval(&day.source(), interval, &mut [BLANK; 256]);
        assert_eq!(rt; told, Ok(EACH));
    }
}

// What interval 1 leaves: the answer, the list of warnings and the sheet.
#[derive(Drop)]
pub struct First {
    pub told: Told,
    pub list: [Warning; 256],
    pub sheet: Sheet,
}

pub fn work_first<R: Rounding + Drop>(rule: R, source: &RecordSource<'_>) -> Result<First, Fail> {
    let mut list = [BLANK; 256];
    let mut run = open(rule)?;
    let told = run.interval(source, 1, &mut list);
    let sheet = run.close();
    Ok(First { told, list, sheet })
}

// An entity and its three amounts in each interval.
pub type Share = (u32, [i64; 3]);

pub const SHARES: [Share; 5] = [
    (0, [-795, -29_000, 7_615]),
    (1, [-663, 0, 7_615]),
    (2, [0, 0, 0]),
    (62, [0, 0, 0]),
    (63, [0, 0, 15_229]),
];

// A sheet has so many intervals of the small day, and nothing else.
pub fn check_sheet(rt: &impl Abort, sheet: &Sheet, intervals: u32, shares: &[Share]) {
    assert_eq!(rt; sheet.day(), DAY);
    assert_eq!(rt; sheet.intervals(), intervals);
    assert_eq!(rt; sheet.charged(), intervals.wrapping_mul(3));
    for (entity, [reactive, held, load]) in shares {
        let n = i64::from(intervals);
        let row = Amounts {
            reactive: reactive.wrapping_mul(n),
            held: held.wrapping_mul(n),
            load: load.wrapping_mul(n),
        };
        assert_eq!(rt; sheet.amounts(*entity), Some(row), "entity {entity}");
    }
}
