// A watch that writes down what it is told.
ghost use Rattle.std.specs.Prelude.{ℕ, ◌+◌, ◌%◌, ◌^◌};

use intervals::warning::Warning;
use jobs::watch::Watch;
use std::process::Abort;

// The intervals that were told, in their order, and all warnings that were told with them, with the sum of their hours.
#[derive(Clone, Copy)]
pub struct Counter {
    told: [u32; 400],
    count: usize,
    pub warnings: usize,
    pub hours: u32,
}

// The sum of the hours of the first rows.
fn hours_of(rows: &[Warning], count: usize) -> u32 {
    let mut hours = 0_u32;
    for row in rows.iter().take(count) {
        hours = hours.wrapping_add(row.hour);
    }
    hours
}

impl Watch for Counter {
    // How often it was told.
    ghost State = { ℕ };

    ghost state = { λ w. w.count };

    ghost told = { λ s i rows. (s + 1) % 2 ^ 64 };

    fn worked(&mut self, interval: u32, rows: &[Warning], count: usize) {
        if let Some(row) = self.told.get_mut(self.count) {
            *row = interval;
        }
        self.count = self.count.wrapping_add(1);
        self.warnings = self.warnings.wrapping_add(count);
        self.hours = self.hours.wrapping_add(hours_of(rows, count));
    }
}

impl Counter {
    pub fn new() -> Counter {
        Counter {
            told: [0; 400],
            count: 0,
            warnings: 0,
            hours: 0,
        }
    }

    // The intervals from 1 to each of these were told, one after the other, and no others.
    pub fn check(&self, rt: &impl Abort, lasts: &[u32]) {
        let mut told = self.told.iter();
        let mut count = 0_u32;
        for last in lasts {
            for interval in 1..=*last {
                assert_eq!(rt; told.next(), Some(&interval));
                count = count.wrapping_add(1);
            }
        }
        assert_eq!(rt; u32::try_from(self.count), Ok(count));
    }
}
