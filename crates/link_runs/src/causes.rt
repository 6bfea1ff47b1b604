// Every cause of a refusal, and that the lent memory is as before: its digest is that of the run without the refused call.
use crate::answers::Told;
use crate::course::spaced;
use link::state::{Link, Packet};
use refusals::Refusal;
use std::io;
use traffic::Row;
use traffic::spaced::Spaced;

type Lent = Row<Spaced, Option<u32>>;

fn mixed(all: u64, numbers: &[u32]) -> u64 {
    numbers.iter().fold(all, |all, n| {
        all.wrapping_mul(1000003).wrapping_add(u64::from(*n))
    })
}

fn row_mixed(all: u64, row: &Lent) -> u64 {
    let kind = row.kind;
    let all = mixed(all, &[kind.period, kind.longest, kind.allowance]);
    match row.state {
        None => mixed(all, &[1]),
        Some(slot) => mixed(all, &[2, slot]),
    }
}

fn packet_mixed(all: u64, packet: &Packet) -> u64 {
    let mat = u32::from(packet.mat);
    let bytes = u32::from(packet.bytes);
    mixed(all, &[packet.due, mat, packet.count, packet.place, bytes])
}

// What the lent memory holds, as one number.
fn digest(rows: &[Lent], places: &[Packet]) -> u64 {
    let all = rows.iter().fold(7, row_mixed);
    places.iter().fold(all, packet_mixed)
}

// Two live mats, and a packet of the first in the only place of the waiting list.
fn begin(link: &mut Link<'_, Spaced>) -> Result<(), Refusal> {
    link.join(1, spaced(10, 2, 5))?;
    link.join(2, spaced(8, 4, 9))?;
    link.offer(1, 0, 64)
}

// Makes the call on a link over this memory, and prints the answer and the digest of the memory then.
fn tried<F: FnOnce(&mut Link<'_, Spaced>) -> Result<u32, Refusal>>(
    rt: &HostRuntime,
    longest: u32,
    lent: &mut [Lent],
    cause: u32,
    call: F,
) -> io::Result<()>
    requires { F.IsAlwaysCallable call }
{
    let mut places = [Packet::default(); 1];
    let answer = {
        let mut link = Link::open(9, longest, lent, &mut places);
        let _ = begin(&mut link);
        Told(call(&mut link))
    };
    let digest = digest(lent, &places);
    println!(rt; "cause {cause}: {answer}, memory {digest}")
}

// Memory that is lent: what was in it means nothing.
fn row() -> Lent {
    Row {
        kind: spaced(1, 1, 1),
        state: Some(77),
    }
}

// A call with no count of its own.
fn uncounted(answer: Result<(), Refusal>) -> Result<u32, Refusal> {
    answer.map(|()| 0)
}

pub fn run(rt: &HostRuntime) -> io::Result<()> {
    tried(rt, 0, &mut [row(); 3], 0, |_| Ok(0))?;
    tried(
        rt,
        0,
        &mut [row(); 3],
        1,
        |link| uncounted(link.bulk(0, 32)),
    )?;
    tried(rt, 4, &mut [row(); 2], 0, |_| Ok(0))?;
    tried(
        rt,
        4,
        &mut [row(); 2],
        4,
        |link| link.join(3, spaced(5040, 1, 40320)),
    )?;
    tried(rt, 4, &mut [row(); 3], 0, |_| Ok(0))?;
    tried(
        rt,
        4,
        &mut [row(); 3],
        2,
        |link| uncounted(link.offer(0, 0, 32)),
    )?;
    tried(
        rt,
        4,
        &mut [row(); 3],
        3,
        |link| link.join(1, spaced(5040, 1, 40320)),
    )?;
    tried(
        rt,
        4,
        &mut [row(); 3],
        5,
        |link| link.join(3, spaced(1, 1, 40320)),
    )?;
    tried(
        rt,
        4,
        &mut [row(); 3],
        6,
        |link| link.join(3, spaced(12, 3, 17)),
    )?;
    tried(rt, 4, &mut [row(); 3], 7, |link| uncounted(link.release(9)))?;
    tried(
        rt,
        4,
        &mut [row(); 3],
        8,
        |link| uncounted(link.offer(1, 0, 64)),
    )?;
    tried(
        rt,
        4,
        &mut [row(); 3],
        9,
        |link| uncounted(link.offer(2, 0, 128)),
    )
}
