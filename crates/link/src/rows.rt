// The link's rows, and its opening.
ghost use Rattle.std.specs.Prelude.{◌≡◌, ℕ, ◌+◌, ◌<◌, ◌≤◌, Bool, true, false, [], ◌∷◌, ◌++◌, length, IfSome, Some, Ok, Err, map, if◌then◌else◌, slice_index_or};
ghost use Rattle.std.specs.List.{slice_get};
ghost use Rattle.verdict.specs.Judged.{Judged};
ghost use Rattle.verdict.specs.Members.{members, rows_counted, size};
ghost use Rattle.link.specs.Holding.{Vacant, hold_of, filled};
ghost use Rattle.link.specs.Model.{model, opened, find, channels, with_rows, on_entry, on_row};
ghost use Rattle.link.specs.Memory.{NothingLent, RowsOnly};
ghost use Rattle.link.specs.Promise.{Promise};
ghost use Rattle.link.specs.declared.state.Record.{Record};
ghost use Rattle.link.specs.Rows.{blank, changed, counted, moved, is_free, counted_of, held_of, Tests};

use crate::state::{Event, Hold, Link, Mat, Packet, Phase, Record, Table};
use pool::Pool;
use refusals::Refusal;
use traffic::{Row, Traffic};
use verdict::Verdict;
use verdict::channels::Channels;

impl<'a, K: Traffic> Link<'a, K> {
    // A link whose longest packet has `longest` slots, over memory that its owner lends: 1 to 32 rows and 1 to 256 places for waiting packets.
    // With any of these outside its limit the link is shut. Its promise: whatever is called from here on, nothing accepted is late and nothing is
    // refused without need.
    pub fn open(
        name: u16,
        longest: u32,
        rows: &'a mut [Row<K, K::State>],
        waiting: &'a mut [Packet],
    ) -> Link<'a, K>
        ensures said { model result ≡ opened name longest rows.old (length waiting.old) }
        ensures lent { (result.rows ≡ rows.entry) × (result.waiting.places.ghost_name ≡ waiting.entry.ghost_name) × (result.waiting.places.now ≡ waiting.old) }
        ensures promise { Promise K.Curve.numbers K.Curve.limits K.Curve.dated K.Traffic.steps (model result) }
    {
        let waiting = Pool::new(waiting);
        let table = Table::new();
        Link {
            name,
            longest,
            table,
            rows,
            waiting,
            clock: 0,
            serials: 0,
            offers: 0,
            bulk: None,
            air: None,
            last: None,
        }
    }

    // How many slots have passed since the opening.
    pub fn clock(&self) -> u32
        ensures { result ≡ (model self.now).clock }
    {
        self.clock
    }

    // Whether the link is shut.
    pub fn shut(&self) -> bool
        ensures { result ≡ (model self.now).terms.shut }
    {
        !((1..=255).contains(&self.longest)
            && (1..=32).contains(&self.rows.len())
            && (1..=256).contains(&self.waiting.capacity()))
    }

    // Refuses where the link is shut.
    pub(crate) fn opened(&self) -> Result<(), Refusal>
        ensures { result ≡ (if (model self.now).terms.shut then Err Refusal.Shut else Ok tt) }
    {
        if self.shut() {
            return Err(Refusal::Shut);
        }
        Ok(())
    }

    // The place of the first row whose record is wanted.
    fn find<F: Fn(&Record) -> bool>(&self, wanted: F) -> Option<usize>
        requires { F.IsAlwaysCallable wanted }
        ensures found { (P : Record → Bool) → Tests (F.post wanted) P → result ≡ find P (model self.now) }
        ensures within { IfSome result (λ i. (i < 32) × (i < length self.now.rows.now)) }
    {
        let mut records = self.table.records.iter().take(self.rows.len());
        records.position(wanted)
    }

    // The place of the counted row of a mat.
    pub(crate) fn row_of(&self, mat: Mat) -> Option<usize>
        ensures found { result ≡ find (counted_of mat) (model self.now) }
        ensures within { IfSome result (λ i. (i < 32) × (i < length self.now.rows.now)) }
    {
        self.find(|row| row.mat == mat && row.phase.counts())
    }

    // The place of the held row of a hold.
    pub(crate) fn row_held(&self, hold: &Hold) -> Option<usize>
        ensures found { result ≡ find (held_of hold.now.mat hold.now.serial) (model self.now) }
        ensures within { IfSome result (λ i. (i < 32) × (i < length self.now.rows.now)) }
    {
        self.find(|row| {
            row.mat == hold.mat && row.serial == hold.serial && row.phase == Phase::Held
        })
    }

    // A copy of the row at a place that a search found. A place is a plain number here and below: it indexes two arrays, of which one is lent,
    // so a type for it could carry but half of what it must keep.
    pub(crate) fn at(&self, i: usize) -> (Record, Row<K, K::State>)
        requires { (i < 32) × (i < length self.now.rows.now) }
        ensures { slice_get (model self.now).rows i ≡ Some (record { entry = result.0; row = result.1 }) }
    {
        let rows = &*self.rows;
        (self.table.records[i], rows[i])
    }

    // The place of a free row, whichever.
    pub(crate) fn vacant(&self) -> Option<usize>
        ensures found { result ≡ find is_free (model self.now) }
        ensures within { IfSome result (λ i. (i < 32) × (i < length self.now.rows.now)) }
        ensures vacant { IfSome result (Vacant (model self.now)) }
        ensures free { IfSome result (λ i. (slice_index_or self.now.table.records i blank).phase ≡ Phase.Free) }
    {
        self.find(|row| !row.phase.counts())
    }

    // Moves the row at a place by an event.
    pub(crate) fn meet(&mut self, i: usize, event: Event)
        requires { i < 32 }
        ensures said { model self.new ≡ with_rows (model self.old) (changed (on_entry (moved event)) i (model self.old).rows) }
        ensures lent { NothingLent self.old self.new }
    {
        self.table.meet(i, event);
    }

    // Stores the kind and state of the row at a place.
    pub(crate) fn store(&mut self, i: usize, row: Row<K, K::State>)
        requires { (i < 32) × (i < length self.old.rows.now) }
        ensures said { model self.new ≡ with_rows (model self.old) (changed (on_row row) i (model self.old).rows) }
        ensures lent { RowsOnly self.old self.new }
    {
        self.rows[i] = row;
    }

    // Fills a free row as held, and gives the hold.
    pub(crate) fn fill(&mut self, i: usize, mat: Mat, row: Row<K, K::State>) -> Hold
        requires within { (i < 32) × (i < length self.old.rows.now) }
        requires free { (slice_index_or self.old.table.records i blank).phase ≡ Phase.Free }
        requires serials { self.old.serials < 4294967295 }
        ensures hold { result ≡ hold_of (model self.old) mat }
        ensures said { model self.new ≡ filled (model self.old) i mat row }
        ensures lent { RowsOnly self.old self.new }
    {
        let serial = self.serials + 1;
        self.serials = serial;
        self.table.fill(i, mat, serial);
        self.rows[i] = row;
        Hold {
            link: self.name,
            mat,
            serial,
        }
    }

    // What the verdict says of the counted channels with one more: a function of its own, so that a hold refused before it costs less.
    pub(crate) fn judged(&self, kind: K) -> Verdict
        requires { (model self.now).terms.shut ≡ false }
        ensures { Judged K.Curve.numbers K.Curve.limits self.now.longest (length (model self.now).rows) (channels (model self.now).rows ++ kind ∷ []) result }
    {
        let counted = self.table.counted();
        self.channels(&counted).with(kind).judge(self.longest)
    }

    // The counted channels, by these marks of the counted rows.
    pub(crate) fn channels<'b>(&'b self, marks: &'b [bool]) -> Channels<'b, K, K::State>
        requires open { (model self.now).terms.shut ≡ false }
        requires marked { marks.now ≡ map counted self.now.table.records }
        ensures size { size result ≡ length (model self.now).rows }
        ensures rows { rows_counted result ≡ channels (model self.now).rows }
        ensures members { members result ≡ channels (model self.now).rows }
    {
        Channels {
            rows: self.rows,
            counted: marks,
            more: None,
        }
    }
}
