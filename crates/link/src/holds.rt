// Holds: granted, confirmed, cancelled, released; and the stretch.
ghost use Rattle.std.specs.Prelude.{◌≡◌, ◌<◌, IfOk, Bool, true, false};
ghost use Rattle.link.specs.declared.state.Event.{Event};
ghost use Rattle.link.specs.Model.{model};
ghost use Rattle.link.specs.Memory.{Kept, NothingLent, RowsOnly};
ghost use Rattle.link.specs.Asking.{Stretches, Leasts};
ghost use Rattle.link.specs.Holding.{Holds};
ghost use Rattle.link.specs.Joining.{Joined};
ghost use Rattle.link.specs.Settling.{settled, settled_place, Confirms, Cancels, Releases};

use crate::packets::is_mat;
use crate::state::{Event, Hold, Link, Mat};
use refusals::Refusal;
use traffic::{Row, Traffic};

impl Hold {
    // A hold that was used is taken apart, since none can be dropped.
    fn spend(self) {
        let Hold {
            link: _,
            mat: _,
            serial: _,
        } = self;
    }
}

impl<'a, K: Traffic> Link<'a, K> {
    // Holds a row for a mat if the counted channels pass with the new one; gives the hold and the count of points.
    pub fn hold(&mut self, mat: Mat, kind: K) -> Result<(Hold, u32), Refusal>
        ensures said { Holds K.Curve.numbers K.Curve.limits K.Traffic.steps (model self.old) mat kind result (model self.new) }
        ensures kept { Kept result self.old self.new }
        ensures lent { RowsOnly self.old self.new }
    {
        self.opened()?;
        if !is_mat(mat) || !kind.within(self.longest) {
            return Err(Refusal::Limits);
        }
        if self.row_of(mat).is_some() {
            return Err(Refusal::MatCounted);
        }
        let i = self.vacant().ok_or(Refusal::NoRow)?;
        if self.serials == u32::MAX {
            return Err(Refusal::NoRow);
        }
        let count = self.judged(kind)?;
        let state = kind.fresh();
        let hold = self.fill(i, mat, Row { kind, state });
        Ok((hold, count))
    }

    // The place of the held row that has this hold.
    fn place_of(&self, hold: &Hold) -> Result<usize, Refusal>
        ensures said { (e : Event) → settled e hold.now (model self.now) ≡ settled_place e (model self.now) result }
        ensures within { IfOk result (λ i. i < 32) }
    {
        self.opened()?;
        if hold.link != self.name {
            return Err(Refusal::NoSuchRow);
        }
        self.row_held(hold).ok_or(Refusal::NoSuchRow)
    }

    // Makes the held row of this hold live; refused, it gives the hold back.
    pub fn confirm(&mut self, hold: Hold) -> Result<(), (Refusal, Hold)>
        ensures said { Confirms (model self.old) hold result (model self.new) }
        ensures kept { Kept result self.old self.new }
        ensures lent { NothingLent self.old self.new }
    {
        match self.place_of(&hold) {
            Ok(i) => {
                hold.spend();
                self.meet(i, Event::Confirm);
                Ok(())
            }
            Err(refusal) => Err((refusal, hold)),
        }
    }

    // Holds a row and confirms the hold, which is always granted; gives the count of points.
    pub fn join(&mut self, mat: Mat, kind: K) -> Result<u32, Refusal>
        ensures said { Joined K.Curve.numbers K.Curve.limits K.Traffic.steps (model self.old) mat kind result (model self.new) }
        ensures kept { Kept result self.old self.new }
        ensures lent { RowsOnly self.old self.new }
    {
        let (hold, count) = self.hold(mat, kind)?;
        match self.confirm(hold) {
            Ok(()) => Ok(count),
            Err((refusal, back)) => {
                let _ = self.cancel(back);
                Err(refusal)
            }
        }
    }

    // Frees the held row of this hold; the hold is spent, also where it is refused.
    pub fn cancel(&mut self, hold: Hold) -> Result<(), Refusal>
        ensures said { Cancels (model self.old) hold result (model self.new) }
        ensures kept { Kept result self.old self.new }
        ensures lent { NothingLent self.old self.new }
    {
        let place = self.place_of(&hold);
        hold.spend();
        let i = place?;
        self.meet(i, Event::Cancel);
        Ok(())
    }

    // Frees a held row; a live one is leaving until the first quiet slot.
    pub fn release(&mut self, mat: Mat) -> Result<(), Refusal>
        ensures said { Releases (model self.old) mat result (model self.new) }
        ensures kept { Kept result self.old self.new }
        ensures lent { NothingLent self.old self.new }
    {
        self.opened()?;
        if !is_mat(mat) {
            return Err(Refusal::Limits);
        }
        let i = self.row_of(mat).ok_or(Refusal::NoSuchRow)?;
        let (record, _) = self.at(i);
        if !record.phase.may_release() {
            return Err(Refusal::NoSuchRow);
        }
        self.meet(i, Event::Release);
        Ok(())
    }

    // No run of slots without a quiet one is longer than this while the counted channels stay.
    pub fn stretch(&self) -> Result<u64, Refusal>
        ensures { Stretches K.Curve.numbers K.Curve.limits (model self.now) result }
    {
        self.opened()?;
        let counted = self.table.counted();
        Ok(self.channels(&counted).stretch(self.longest)?)
    }

    // The least allowance with which the kind would be granted, whatever it declares, and the point that forbids one slot less (0 if none does).
    pub fn least(&self, kind: K) -> Result<(u32, u32), Refusal>
        ensures { Leasts K.Curve.numbers K.Curve.limits K.Curve.dated (model self.now) kind result }
    {
        self.opened()?;
        let counted = self.table.counted();
        Ok(self.channels(&counted).least(kind, self.longest)?)
    }
}
