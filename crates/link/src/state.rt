// What a link is made of.
ghost use Rattle.std.specs.Prelude.{◌≡◌, ℕ, ◌+◌, ◌≤◌, Bool, true, false, ◌||◌, length};
ghost use Rattle.link.specs.Packets.{packet_before, on_air};
ghost use Rattle.link.specs.Rows.{none_leaving};
ghost use Rattle.std.proofs.Common.{rules};

use pool::{Ordered, Pool};
use traffic::{Row, Traffic};

// The number of a mat: 1 to 255, and 0 stands for bulk.
pub type Mat = u8;

#[derive(Clone, Copy, PartialEq, Eq)]
pub(crate) enum Phase {
    Free,
    Held,
    Live,
    Leaving,
}

// What a row meets.
#[derive(Clone, Copy, PartialEq, Eq)]
pub(crate) enum Event {
    Hold,
    Confirm,
    Cancel,
    Release,
    Quiet,
}

// A row's mat, the serial of its hold, and its phase.
#[derive(Clone, Copy)]
pub(crate) struct Record {
    pub(crate) mat: Mat,
    pub(crate) serial: u32,
    pub(crate) phase: Phase,
}

// A granted hold, which is confirmed or cancelled once.
pub struct Hold {
    pub(crate) link: u16,
    pub(crate) mat: Mat,
    pub(crate) serial: u32,
}

// A packet that waits, with its due slot and how many packets were accepted before it; the default fills a place that is lent.
#[derive(Clone, Copy, Default)]
pub struct Packet {
    pub due: u32,
    pub mat: Mat,
    pub count: u32,
    pub place: u32,
    pub bytes: u16,
}

// A packet of the files, which has no due slot.
#[derive(Clone, Copy)]
pub(crate) struct Bulk {
    pub(crate) place: u32,
    pub(crate) bytes: u16,
}

// The packet on the air, of mat 0 if it is bulk, and how many of its slots are sent.
#[derive(Clone, Copy)]
pub(crate) struct Air {
    pub(crate) mat: Mat,
    pub(crate) place: u32,
    pub(crate) bytes: u16,
    pub(crate) sent: u16,
}

// What a slot carried: the mat (0 for bulk), the number of the piece from 0, and whether the packet ended with it.
#[derive(Clone, Copy)]
pub struct Sent {
    pub mat: Mat,
    pub piece: u16,
    pub ended: bool,
}

impl Ordered for Packet {
    ghost before = { packet_before };

    ghost asymmetric = { Prim.search rules };

    ghost transitive = { Prim.search rules };

    fn precedes(&self, other: &Packet) -> bool {
        (self.due, self.mat, self.count) < (other.due, other.mat, other.count)
    }
}

// The records of the rows that a link can have; those past the lent rows stay free.
#[derive(Drop)]
pub(crate) struct Table {
    pub(crate) records: [Record; 32],
    // false only if no row is leaving, so that most quiet slots look at no row
    pub(crate) leaving: bool,
    ghost full: { length records ≡ 32 },
    ghost known: { (leaving || none_leaving records) ≡ true },
}

// A link: `longest` is its longest packet in slots, `rows` and the places of `waiting` are lent by its owner.
#[derive(Drop)]
pub struct Link<'a, K: Traffic> {
    pub(crate) name: u16,
    pub(crate) longest: u32,
    pub(crate) table: Table,
    pub(crate) rows: &'a mut [Row<K, K::State>],
    pub(crate) waiting: Pool<'a, Packet>,
    pub(crate) clock: u32,
    // how many holds were granted, and how many offers accepted
    pub(crate) serials: u32,
    pub(crate) offers: u32,
    pub(crate) bulk: Option<Bulk>,
    pub(crate) air: Option<Air>,
    // what the last tick carried
    pub(crate) last: Option<Air>,
    ghost early: { clock ≤ 2000000000 },
    ghost counted: { offers ≤ clock + waiting.count + on_air air },
}
