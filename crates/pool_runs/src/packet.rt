// A waiting packet: the earliest due slot goes first, then the lowest mat, then the earliest offer.
ghost use Rattle.pool_runs.specs.Orders.{packet_before};
ghost use Rattle.std.proofs.Common.{rules};

use crate::drain::Sample;
use pool::Ordered;
use std::fmt;

// Where its bytes lie stands outside the order. The link has a packet of its own, which this crate does not know: it shows the pool alone.
#[derive(Clone, Copy)]
pub struct Packet {
    pub due: u32,
    pub mat: u8,
    pub count: u32,
    pub place: u32,
}

impl Ordered for Packet {
    ghost before = { packet_before };

    ghost asymmetric = { Prim.search rules };

    ghost transitive = { Prim.search rules };

    fn precedes(&self, other: &Packet) -> bool {
        (self.due, self.mat, self.count) < (other.due, other.mat, other.count)
    }
}

impl Sample for Packet {
    fn sample(i: u16) -> Packet {
        let n = u32::from(i);
        Packet {
            due: (n + 1) * 37 % 50,
            mat: (n % 3) as u8,
            count: n % 2,
            place: n,
        }
    }
}

impl fmt::Display for Packet {
    fn fmt<W: fmt::Write>(&self, f: &mut fmt::Formatter<W>) -> fmt::Result {
        write!(f, "{}.{}.{}", self.due, self.mat, self.count)
    }
}
