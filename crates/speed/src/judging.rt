// Cases of the verdict: holds refused at a late point, the most points there can be, and the least allowance.
use crate::kinds::{Kind, Lent, cover, row};
use link::state::{Link, Packet};
use std::alloc::{AllocError, Global};
use std::io;
use verdict::channels::Channels;

// 24 channels: 23 with a packet due in nearly every slot, and one whose bursts take most of what is left.
fn dense(heap: Global) -> Result<Vec<Kind>, AllocError> {
    let mut kinds = cover(heap, 23)?;
    kinds.truncate(23);
    kinds.push(Kind::bucket(5040, 24, 8, 34583))?;
    Ok(kinds)
}

// Asks for the hold so often: the point at which the last was refused and how many points were taken.
fn ask(link: &mut Link<'_, Kind>, kind: Kind, times: u32) -> (u32, u32) {
    let mut last = (0, 0);
    for _ in 0..times {
        match link.hold(25, kind) {
            Ok((hold, _)) => {
                let _ = link.cancel(hold);
            }
            Err(refusal) => last = refusal.values(),
        }
    }
    last
}

// Holds beside 24 granted channels, each refused at one of the last points.
pub fn refused(rt: &HostRuntime, times: u32) -> io::Result<()> {
    let mut rows = [row(Kind::spaced(1, 1, 1)); 32];
    let mut places = [Packet::default(); 256];
    let mut link = Link::open(0, 24, &mut rows, &mut places);
    let kinds = dense(rt.alloc())?;
    let granted = (1..33u8)
        .zip(&kinds)
        .filter(|(mat, kind)| link.join(*mat, **kind).is_ok())
        .count();
    let (point, count) = ask(&mut link, Kind::bucket(1260, 1, 6, 40320), times);
    println!(rt; "refused: {times} holds beside {granted} channels, point {point}, count {count}")
}

// A row for each of 32 channels that leave one slot of a frame.
fn full_table(heap: Global) -> Result<Vec<Lent>, AllocError> {
    let kinds = cover(heap, 0)?;
    kinds.iter().map(|kind| row(*kind)).collect(heap)
}

// The verdict on 33 channels, the last with the longest allowance, so that no other channels have more points.
pub fn points(rt: &HostRuntime, times: u32) -> io::Result<()> {
    let rows = full_table(rt.alloc())?;
    let channels = Channels::all(&rows).with(Kind::spaced(5040, 1, 40320));
    let mut taken = 0u32;
    for _ in 0..times {
        if let Ok(count) = channels.judge(1) {
            taken = count;
        }
    }
    println!(rt; "points: {times} verdicts on 33 channels, count {taken}")
}

// The least allowance beside 32 channels.
pub fn least(rt: &HostRuntime, times: u32) -> io::Result<()> {
    let rows = full_table(rt.alloc())?;
    let channels = Channels::all(&rows);
    let mut found = (0, 0);
    for _ in 0..times {
        if let Ok(answer) = channels.least(Kind::spaced(5040, 1, 0), 1) {
            found = answer;
        }
    }
    let (allowance, point) = found;
    println!(rt;
        "least: {times} searches beside 32 channels, least {allowance}, forbidden by {point}"
    )
}
