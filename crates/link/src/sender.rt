// The sender: offers, bulk packets and ticks.
ghost use Rattle.std.specs.Prelude.{◌≡◌, ℕ, ◌+◌, ◌<◌, ◌≤◌, Bool, true, false, length, None, ◌==◌};
ghost use Rattle.std.specs.Option.{option_map};
ghost use Rattle.link.specs.Model.{model};
ghost use Rattle.link.specs.Memory.{Kept, NothingLent, WaitingOnly, RowsAndWaiting};
ghost use Rattle.link.specs.Packets.{told};
ghost use Rattle.link.specs.Pieces.{Pieces, seen};
ghost use Rattle.link.specs.Sending.{admitted, Waits, Offers, Bulks};
ghost use Rattle.link.specs.Ticking.{Begins, quiet, passed, Ticks};

use crate::packets::{is_mat, packet_bytes, slots};
use crate::state::{Air, Bulk, Link, Mat, Packet, Phase, Sent};
use refusals::Refusal;
use traffic::{Row, Traffic};

// The row after its kind's step, and when the packet is due; none if the kind does not take it. The step is made on a copy.
fn admitted<K: Traffic>(
    row: Row<K, K::State>,
    longest: u32,
    slot: u32,
    length: u32,
) -> Option<(Row<K, K::State>, u32)>
    requires longest { (1 ≤ longest) × (longest ≤ 255) }
    requires early { slot ≤ 2000000000 }
    ensures { result ≡ admitted K.Curve.numbers K.Curve.limits K.Traffic.steps longest slot length row }
{
    let kind = row.kind;
    let mut state = row.state;
    if !kind.within(longest) {
        return None;
    }
    if !kind.step(&mut state, slot, length) {
        return None;
    }
    Some((Row { kind, state }, slot + kind.allowance()))
}

impl<'a, K: Traffic> Link<'a, K> {
    // Adds a packet to those that wait, if there is a place.
    fn wait(&mut self, packet: Packet) -> Result<(), Refusal>
        requires open { (model self.old).terms.shut ≡ false }
        ensures said { Waits packet (model self.old) result (model self.new) }
        ensures kept { Kept result self.old self.new }
        ensures lent { WaitingOnly self.old self.new }
    {
        self.waiting.put(packet).map_err(|_| Refusal::Full)?;
        self.offers = self.offers + 1;
        Ok(())
    }

    // A packet of a live mat: it waits, due as many slots from now as its kind allows.
    pub fn offer(&mut self, mat: Mat, place: u32, bytes: u32) -> Result<(), Refusal>
        ensures said { Offers K.Curve.numbers K.Curve.limits K.Traffic.steps (model self.old) mat place bytes result (model self.new) }
        ensures kept { Kept result self.old self.new }
        ensures lent { RowsAndWaiting self.old self.new }
    {
        self.opened()?;
        // whatever the link's longest packet is
        let bytes = packet_bytes(255, bytes).ok_or(Refusal::Limits)?;
        if !is_mat(mat) {
            return Err(Refusal::Limits);
        }
        let i = self.row_of(mat).ok_or(Refusal::NoSuchRow)?;
        let (record, row) = self.at(i);
        if record.phase != Phase::Live {
            return Err(Refusal::NoSuchRow);
        }
        let (stepped, due) = admitted(row, self.longest, self.clock, slots(bytes)).ok_or(
            Refusal::Unlawful,
        )?;
        self.wait(Packet {
            due,
            mat,
            count: self.offers,
            place,
            bytes,
        })?;
        self.store(i, stepped);
        Ok(())
    }

    // A packet of the files: it waits for a quiet slot.
    pub fn bulk(&mut self, place: u32, bytes: u32) -> Result<(), Refusal>
        ensures said { Bulks (model self.old) place bytes result (model self.new) }
        ensures kept { Kept result self.old self.new }
        ensures lent { NothingLent self.old self.new }
    {
        self.opened()?;
        let bytes = packet_bytes(self.longest, bytes).ok_or(Refusal::Limits)?;
        if self.bulk.is_some() {
            return Err(Refusal::Full);
        }
        self.bulk = Some(Bulk { place, bytes });
        Ok(())
    }

    // One slot passes: what it carried, or nothing.
    pub fn tick(&mut self) -> Result<Option<Sent>, Refusal>
        ensures said { Ticks (model self.old) result (model self.new) }
        ensures kept { Kept result self.old self.new }
        ensures lent { WaitingOnly self.old self.new }
    {
        // not by `opened()?`: 2,000,000,000 idle ticks take a tenth longer with it
        if self.shut() {
            return Err(Refusal::Shut);
        }
        if self.clock >= 2_000_000_000 {
            return Err(Refusal::ClockEnd);
        }
        self.begin();
        Ok(self.pass())
    }

    // The bytes that the last granted tick carried: a part of the mats' memory, or of the files' memory for a bulk packet.
    pub fn piece<'b>(&self, mats: &'b [u8], files: &'b [u8]) -> Result<&'b [u8], Refusal>
        ensures { Pieces (model self.now) mats.now files.now (seen result) }
    {
        self.opened()?;
        let last = self.last.ok_or(Refusal::NothingCarried)?;
        if last.mat == 0 {
            return last.piece(files);
        }
        last.piece(mats)
    }

    // The start of a slot: something goes on the air if nothing is.
    fn begin(&mut self)
        ensures said { Begins self.old.air (model self.old) (model self.new) }
        ensures clock { self.new.clock ≡ self.old.clock }
        ensures lent { WaitingOnly self.old self.new }
    {
        if self.air.is_some() {
            return;
        }
        if self.waiting.is_empty() {
            self.rest();
        } else {
            self.load();
        }
    }

    // The first waiting packet goes on the air.
    fn load(&mut self)
        requires off { self.old.air ≡ None }
        requires some { (self.old.waiting.count == 0) ≡ false }
        ensures said { Begins None (model self.old) (model self.new) }
        ensures clock { self.new.clock ≡ self.old.clock }
        ensures lent { WaitingOnly self.old self.new }
    {
        self.air = self.waiting.take().map(Air::from);
    }

    // A quiet slot: leaving rows become free, and the bulk packet goes on the air.
    fn rest(&mut self)
        requires off { self.old.air ≡ None }
        ensures said { model self.new ≡ quiet (model self.old) }
        ensures clock { self.new.clock ≡ self.old.clock }
        ensures lent { NothingLent self.old self.new }
    {
        self.table.rest();
        // no `take` and `map`: they would write both fields in every idle slot, which slows it by a tenth
        if let Some(bulk) = self.bulk {
            self.air = Some(Air::from(bulk));
            self.bulk = None;
        }
    }

    // The clock rises by one, and what is on the air sends one slot more.
    fn pass(&mut self) -> Option<Sent>
        requires { self.old.clock < 2000000000 }
        ensures told { result ≡ option_map told self.old.air }
        ensures said { model self.new ≡ passed (model self.old) }
        ensures lent { NothingLent self.old self.new }
    {
        self.clock = self.clock + 1;
        self.last = self.air;
        let air = self.air?;
        let (sent, rest) = air.send();
        self.air = rest;
        Some(sent)
    }
}
