// A release: the row counts until the first quiet slot, and only then another mat gets its share.
use crate::answers::Told;
use link::state::{Link, Mat, Packet};
use refusals::answered;
use std::io;
use traffic::spaced::Spaced;
use traffic::{Row, Traffic};

// A kind by its numbers: some twenty literals would be longer.
pub fn spaced(period: u32, longest: u32, allowance: u32) -> Spaced {
    Spaced {
        period,
        longest,
        allowance,
    }
}

// A row to lend, whatever is in it.
pub(crate) fn row() -> Row<Spaced, Option<u32>> {
    Row {
        kind: spaced(20, 5, 9),
        state: None,
    }
}

// Prints what so many ticks carried.
fn ticks<K: Traffic>(rt: &HostRuntime, link: &mut Link<'_, K>, n: u32) -> io::Result<()> {
    for _ in 0..n {
        let clock = link.clock();
        match link.tick() {
            Ok(None) => println!(rt; "tick at {clock}: quiet")?,
            Ok(Some(sent)) => println!(rt;
                "tick at {clock}: mat {} piece {} ended {}",
                sent.mat, sent.piece, sent.ended
            )?,
            Err(refusal) => println!(rt; "tick at {clock}: refused {}", refusal.number())?,
        }
    }
    Ok(())
}

fn joined<K: Traffic>(
    rt: &HostRuntime,
    link: &mut Link<'_, K>,
    mat: Mat,
    kind: K,
) -> io::Result<()> {
    let clock = link.clock();
    let answer = Told(link.join(mat, kind));
    println!(rt; "hold for {mat} at {clock}: {answer}")
}

// With no bulk packet, since it has no bytes, or with one: either way the slot at clock 10 is quiet.
pub fn run(rt: &HostRuntime) -> io::Result<()> {
    with_bulk(rt, 0)?;
    with_bulk(rt, 64)
}

fn with_bulk(rt: &HostRuntime, bytes: u32) -> io::Result<()> {
    let mut rows = [row(); 4];
    let mut places = [Packet::default(); 8];
    let mut link = Link::open(0, 5, &mut rows, &mut places);
    joined(rt, &mut link, 1, spaced(20, 5, 9))?;
    joined(rt, &mut link, 2, spaced(20, 5, 14))?;
    let first = answered(link.offer(1, 0, 160));
    let second = answered(link.offer(2, 0, 160));
    println!(rt; "offers: {first}, {second}")?;
    ticks(rt, &mut link, 5)?;
    let released = answered(link.release(1));
    println!(rt; "release of 1: {released}")?;
    joined(rt, &mut link, 3, spaced(20, 5, 9))?;
    ticks(rt, &mut link, 5)?;
    let bulk = answered(link.bulk(0, bytes));
    println!(rt; "bulk: {bulk}")?;
    ticks(rt, &mut link, 1)?;
    joined(rt, &mut link, 3, spaced(20, 5, 9))?;
    ticks(rt, &mut link, 3)
}
