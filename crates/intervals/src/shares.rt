// The price, and the shares of the load.
ghost use Rattle.std.specs.Prelude.{◌≡◌, ℕ, ◌<◌, ◌≤◌};
ghost use Rattle.terms.specs.Determinants.{admitted};
ghost use Rattle.amounts.specs.Sums.{add_to};
ghost use Rattle.amounts.specs.Tables.{at};
ghost use Rattle.intervals.specs.Askings.{Needed, Figured, Priced, Shared, Divided};

use crate::asking::Inquiry;
use crate::fault::{Cause, Fault};
use crate::judge::Judgement;
use amounts::formulas::WHOLE_LOAD;
use terms::determinant::Determinant;
use terms::question::ENTITIES;
use terms::source::Source;

impl<S: Source> Inquiry<'_, S> {
    // The figure of a determinant that is neither passed over nor warned of.
    fn needed(&self, determinant: Determinant, unit: u32) -> Result<i64, Fault>
        requires { Needed determinant }
        ensures { Figured (S.Source.table self.now.source.now) self.now.slot.day self.now.slot.interval determinant unit result }
    {
        match self.judge(determinant, unit) {
            Judgement::Taken(figure) => Ok(figure),
            Judgement::Stopped(cause) => Err(Fault::new(cause, determinant, unit)),
            Judgement::Skipped | Judgement::Warned => unreachable(),
        }
    }

    // The price of reactive energy in the interval.
    pub(crate) fn price(&self) -> Result<i64, Fault>
        ensures { Priced (S.Source.table self.now.source.now) self.now.slot.day self.now.slot.interval result }
    {
        self.needed(Determinant::Vssvarpr, 0)
    }

    fn share(&self, entity: u32) -> Result<u32, Fault>
        ensures { Shared (S.Source.table self.now.source.now) self.now.slot.day self.now.slot.interval entity result }
    {
        let share = self.needed(Determinant::Lrs, entity)?;
        Ok(share.unsigned_abs() as u32)
    }

    // The shares of all entities, which are all of the load together.
    pub(crate) fn shares(&self) -> Result<[u32; ENTITIES], Fault>
        ensures { Divided (S.Source.table self.now.source.now) self.now.slot.day self.now.slot.interval result }
    {
        let mut shares = [0; ENTITIES];
        let mut sum: u32 = 0;
        for (entity, share) in shares.iter_mut().enumerate() {
            let part = self.share(entity as u32)?;
            *share = part;
            sum += part;
        }
        if sum != WHOLE_LOAD {
            return Err(Fault::new(Cause::Shares, Determinant::Lrs, 0));
        }
        Ok(shares)
    }
}
