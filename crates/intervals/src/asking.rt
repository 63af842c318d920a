// Asking a source, determinant after determinant.
ghost use Rattle.std.specs.Prelude.{◌≡◌, ◌+◌, ◌≤◌, length, slice_set};
ghost use Rattle.intervals.specs.Courses.{warning_rows, judged_at, rows_for, resource, written, after};
ghost use Rattle.intervals.specs.Askings.{after_by, Reads, place_of, figure_at, number_at, gathered, asked_of, Asks};

use crate::fault::Fault;
use crate::judge::{Judgement, judge};
use crate::notes::Notes;
use crate::warning::Warning;
use amounts::readings::Readings;
use terms::determinant::Determinant;
use terms::question::{Question, Slot};
use terms::source::Source;

// In asking order.
const OF_RESOURCE: [Determinant; 11] = [
    Determinant::Owner,
    Determinant::Vssvariol,
    Determinant::Urllag,
    Determinant::Urllead,
    Determinant::Rtvar,
    Determinant::Hsl,
    Determinant::Lsl,
    Determinant::Rtspp,
    Determinant::Rthslaiec,
    Determinant::Rtvssaiec,
    Determinant::Rtmg,
];

// What an interval is worked from: a source, and which interval of which day.
#[derive_where(Clone, Copy)]
pub(crate) struct Inquiry<'a, S> {
    pub(crate) source: &'a S,
    pub(crate) slot: Slot,
}

// The owner of a Resource and its readings.
#[derive(Clone, Copy)]
pub(crate) struct Asked {
    pub(crate) owner: usize,
    pub(crate) readings: Readings,
}

// What is known of a Resource's determinants: the figure of each at its place, and none for a missing cost.
#[derive(Clone, Copy)]
struct Figures {
    places: [Option<i64>; 13],
}

impl Figures {
    fn put(&mut self, determinant: Determinant, figure: Option<i64>)
        ensures { self.new.places ≡ slice_set self.old.places (place_of determinant) figure }
    {
        self.places[determinant as usize] = figure;
    }

    fn figure(&self, determinant: Determinant) -> Option<i64>
        ensures { result ≡ figure_at self.now.places determinant }
    {
        self.places[determinant as usize]
    }

    fn number(&self, determinant: Determinant) -> i64
        ensures { result ≡ number_at self.now.places determinant }
    {
        self.figure(determinant).unwrap_or(0)
    }

    fn readings(&self) -> Readings
        ensures { result ≡ gathered self.now.places }
    {
        Readings {
            vssvariol: self.number(Determinant::Vssvariol),
            urllag: self.number(Determinant::Urllag),
            urllead: self.number(Determinant::Urllead),
            rtvar: self.number(Determinant::Rtvar),
            hsl: self.number(Determinant::Hsl),
            lsl: self.number(Determinant::Lsl),
            rtspp: self.number(Determinant::Rtspp),
            rthslaiec: self.figure(Determinant::Rthslaiec),
            rtvssaiec: self.figure(Determinant::Rtvssaiec),
            rtmg: self.number(Determinant::Rtmg),
        }
    }

    fn asked(&self) -> Asked
        ensures { result ≡ asked_of self.now.places }
    {
        Asked {
            owner: self.number(Determinant::Owner).unsigned_abs() as usize,
            readings: self.readings(),
        }
    }
}

impl<S: Source> Inquiry<'_, S> {
    // What the answer about a determinant and a unit means.
    pub(crate) fn judge(&self, determinant: Determinant, unit: u32) -> Judgement
        ensures { result ≡ judged_at (S.Source.table self.now.source.now) self.now.slot.day self.now.slot.interval determinant unit }
    {
        let question = Question::about(determinant, unit, self.slot);
        judge(determinant, self.source.ask(question))
    }

    // The same; where a cost is missing in the first interval of an hour, a warning row is noted.
    fn judge_noting(
        &self,
        determinant: Determinant,
        resource: u32,
        notes: &mut Notes<'_>,
    ) -> Judgement
        requires { notes.old.count + length (rows_for self.now.slot.day self.now.slot.interval resource determinant (judged_at (S.Source.table self.now.source.now) self.now.slot.day self.now.slot.interval determinant resource)) ≤ warning_rows }
        ensures judgement { result ≡ judged_at (S.Source.table self.now.source.now) self.now.slot.day self.now.slot.interval determinant resource }
        ensures same { notes.new.rows.ghost_name ≡ notes.old.rows.ghost_name }
        ensures count { notes.new.count ≡ notes.old.count + length (rows_for self.now.slot.day self.now.slot.interval resource determinant result) }
        ensures rows { notes.new.rows.now ≡ written notes.old.rows.now notes.old.count (rows_for self.now.slot.day self.now.slot.interval resource determinant result) }
    {
        let judgement = self.judge(determinant, resource);
        if judgement == Judgement::Warned && self.slot.interval % 4 == 1 {
            notes.add(Warning {
                determinant: determinant.into(),
                resource,
                day: self.slot.day,
                hour: self.slot.interval / 4 + 1,
            });
        }
        judgement
    }

    // What the determinants of one Resource give, in asking order; none where it is passed over.
    fn figures(&self, unit: u32, notes: &mut Notes<'_>) -> Result<Option<Figures>, Fault>
        requires { notes.old.count + 2 ≤ warning_rows }
        ensures same { notes.new.rows.ghost_name ≡ notes.old.rows.ghost_name }
        ensures course { after_by notes.new.rows.now notes.new.count result ≡ after notes.old.rows.now notes.old.count (resource (S.Source.table self.now.source.now) self.now.slot.day self.now.slot.interval unit) }
        ensures reads { Reads (S.Source.table self.now.source.now) self.now.slot.day self.now.slot.interval unit result }
    {
        let mut figures = Figures { places: [None; 13] };
        for determinant in &OF_RESOURCE {
            let figure = match self.judge_noting(*determinant, unit, notes) {
                Judgement::Taken(figure) => Some(figure),
                Judgement::Warned => None,
                Judgement::Skipped => return Ok(None),
                Judgement::Stopped(cause) => return Err(Fault::new(cause, *determinant, unit)),
            };
            figures.put(*determinant, figure);
        }
        Ok(Some(figures))
    }

    // Asks for a Resource; none where it is passed over.
    pub(crate) fn resource(&self, unit: u32, notes: &mut Notes<'_>) -> Result<Option<Asked>, Fault>
        requires { notes.old.count + 2 ≤ warning_rows }
        ensures same { notes.new.rows.ghost_name ≡ notes.old.rows.ghost_name }
        ensures course { after_by notes.new.rows.now notes.new.count result ≡ after notes.old.rows.now notes.old.count (resource (S.Source.table self.now.source.now) self.now.slot.day self.now.slot.interval unit) }
        ensures asks { Asks (S.Source.table self.now.source.now) self.now.slot.day self.now.slot.interval unit result }
    {
        let figures = self.figures(unit, notes)?;
        Ok(figures.map(|figures| figures.asked()))
    }
}
