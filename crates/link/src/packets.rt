// Packets: their length in slots, and the limits of their bytes.
ghost use Rattle.std.specs.Prelude.{◌≡◌, ℕ, ◌+◌, ◌≤◌, cond, Some, None};
ghost use Rattle.link.specs.Packets.{slots, bulk_bytes_lem, is_mat_lem, carried, begun, begun_file, told, after};
ghost use Rattle.link.specs.Pieces.{piece_in, seen};

use crate::state::{Air, Bulk, Mat, Packet, Sent};
use refusals::Refusal;

// How many slots a packet of so many bytes takes.
pub(crate) fn slots(bytes: u16) -> u32
    ensures is { result ≡ slots bytes }
    ensures bound { result ≤ 2048 }
{
    u32::from(bytes).div_ceil(32)
}

// A packet's bytes, if there are any and at most those of `longest` slots.
pub(crate) fn packet_bytes(longest: u32, bytes: u32) -> Option<u16>
    requires { longest ≤ 255 }
    ensures { result ≡ cond (bulk_bytes_lem longest bytes) (Some bytes) None }
{
    if !(1..=32 * longest).contains(&bytes) {
        return None;
    }
    Some(bytes as u16)
}

// Whether the number is a mat's: 0 is none.
pub(crate) fn is_mat(mat: Mat) -> bool
    ensures { result ≡ is_mat_lem mat }
{
    1 <= mat
}

// How many of a packet's bytes its first slots carry.
fn carried(bytes: u16, slots: usize) -> usize
    requires { slots ≤ 65536 }
    ensures { result ≡ carried bytes slots }
{
    usize::from(bytes).min(32 * slots)
}

// The packet as it goes on the air.
impl From<Packet> for Air {
    ghost from_gives = { λ packet air. air ≡ begun packet };

    fn from(packet: Packet) -> Air {
        Air {
            mat: packet.mat,
            place: packet.place,
            bytes: packet.bytes,
            sent: 0,
        }
    }
}

// The bulk packet as it goes on the air, of mat 0.
impl From<Bulk> for Air {
    ghost from_gives = { λ bulk air. air ≡ begun_file bulk };

    fn from(bulk: Bulk) -> Air {
        Air {
            mat: 0,
            place: bulk.place,
            bytes: bulk.bytes,
            sent: 0,
        }
    }
}

impl Air {
    // What a slot tells of the packet on the air, and what is on the air after it.
    pub(crate) fn send(&self) -> (Sent, Option<Air>)
        ensures told { result.0 ≡ told self.now }
        ensures after { result.1 ≡ after self.now }
    {
        let ended = slots(self.bytes) <= u32::from(self.sent) + 1;
        let sent = Sent {
            mat: self.mat,
            piece: self.sent,
            ended,
        };
        if ended {
            return (sent, None);
        }
        let rest = Air {
            sent: self.sent + 1,
            ..*self
        };
        (sent, Some(rest))
    }

    // The bytes that the slot sent next carries, as a part of the memory that holds the packet.
    pub(crate) fn piece<'b>(&self, memory: &'b [u8]) -> Result<&'b [u8], Refusal>
        ensures { seen result ≡ piece_in self.now memory.now }
    {
        let place = self.place as usize;
        if place + usize::from(self.bytes) > memory.len() {
            return Err(Refusal::BeyondMemory);
        }
        let sent = usize::from(self.sent);
        let from = place + carried(self.bytes, sent);
        let to = place + carried(self.bytes, sent + 1);
        Ok(&memory[from..to])
    }
}
