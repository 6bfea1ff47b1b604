// The table of the rows' records.
ghost use Rattle.std.specs.Prelude.{◌≡◌, ℕ, ◌+◌, ◌<◌, ◌≤◌, Bool, true, false, ◌||◌, map, length, replicate, MatchOption, slice_index_or, slice_set};
ghost use Rattle.link.specs.Rows.{blank, counts, counted, may_release_lem, changed, moved, releases, none_leaving};

use crate::state::{Event, Mat, Phase, Record, Table};
use std::array;

impl Phase {
    // Whether a row in this phase is counted.
    pub(crate) fn counts(&self) -> bool
        ensures { result ≡ counts self.now }
    {
        !matches!(self, Phase::Free)
    }

    // Whether a row in this phase can be released.
    pub(crate) fn may_release(&self) -> bool
        ensures { result ≡ may_release_lem self.now }
    {
        matches!(self, Phase::Held | Phase::Live)
    }
}

impl Record {
    // Moves the row by the event; where its phase does not meet the event, it stays.
    pub(crate) fn meet(&mut self, event: Event)
        ensures { self.new ≡ moved event self.old }
    {
        self.phase = match (self.phase, event) {
            (Phase::Free, Event::Hold) => Phase::Held,
            (Phase::Held, Event::Confirm) => Phase::Live,
            (Phase::Held, Event::Cancel) => Phase::Free,
            (Phase::Held, Event::Release) => Phase::Free,
            (Phase::Live, Event::Release) => Phase::Leaving,
            (Phase::Leaving, Event::Quiet) => Phase::Free,
            (same, _) => same,
        };
    }
}

impl Table {
    // Every row is free.
    pub(crate) fn new() -> Table
        ensures { result.records ≡ replicate 32 blank }
    {
        let blank = Record {
            mat: 0,
            serial: 0,
            phase: Phase::Free,
        };
        Table {
            records: [blank; 32],
            leaving: false,
        }
    }

    // Which rows are counted.
    pub(crate) fn counted(&self) -> [bool; 32]
        ensures { result ≡ map counted self.now.records }
    {
        array::from_fn(|i| self.records[i].phase.counts())
    }

    // Moves one row, whose record is lent to be changed.
    pub(crate) fn meet(&mut self, i: usize, event: Event)
        requires { i < 32 }
        ensures { self.new.records ≡ changed (moved event) i self.old.records }
    {
        self.leaving |= event == Event::Release;
        let record = &mut self.records[i];
        record.meet(event);
    }

    // Fills a free row as held.
    pub(crate) fn fill(&mut self, i: usize, mat: Mat, serial: u32)
        requires within { i < 32 }
        requires free { (slice_index_or self.old.records i blank).phase ≡ Phase.Free }
        ensures { self.new.records ≡ slice_set self.old.records i (record { mat = mat; serial = serial; phase = Phase.Held }) }
    {
        let record = &mut self.records[i];
        record.mat = mat;
        record.serial = serial;
        record.meet(Event::Hold);
    }

    // A quiet slot: leaving rows become free.
    pub(crate) fn rest(&mut self)
        ensures { self.new.records ≡ map (moved Event.Quiet) self.old.records }
    {
        if self.leaving {
            for record in &mut self.records {
                record.meet(Event::Quiet);
            }
            self.leaving = false;
        }
    }
}
