// The bytes that ticks carried, of the mats' memory and of the files', and why none are handed out.
use crate::course::{row, spaced};
use link::state::{Link, Packet};
use refusals::answered;
use std::io;
use traffic::spaced::Spaced;

// Prints the first byte of the piece and how many it has, or the refusal's number.
fn show(rt: &HostRuntime, link: &Link<'_, Spaced>, mats: &[u8], files: &[u8]) -> io::Result<()> {
    match link.piece(mats, files) {
        Ok(piece) => {
            let size = piece.len();
            let first = piece.first().copied().unwrap_or(0);
            println!(rt; "piece: {size} bytes from {first}")
        }
        Err(refusal) => println!(rt; "piece: refused {}", refusal.number()),
    }
}

// Ticks so often, and shows what each tick carried.
fn carry(
    rt: &HostRuntime,
    link: &mut Link<'_, Spaced>,
    ticks: u32,
    mats: &[u8],
    files: &[u8],
) -> io::Result<()> {
    for _ in 0..ticks {
        let _ = link.tick();
        show(rt, link, mats, files)?;
    }
    Ok(())
}

// Memory in which each byte is its place, above `base`.
fn fill(memory: &mut [u8], base: u8) {
    for (byte, place) in memory.iter_mut().zip(base..) {
        *byte = place;
    }
}

// The memory without its last byte.
fn shorter(memory: &[u8]) -> &[u8] {
    match memory {
        [front @ .., _] => front,
        [] => memory,
    }
}

pub fn run(rt: &HostRuntime) -> io::Result<()> {
    let mut mats = [0u8; 73];
    fill(&mut mats, 0);
    let mut files = [0u8; 41];
    fill(&mut files, 100);
    let mut rows = [row(); 2];
    let mut places = [Packet::default(); 4];
    let mut link = Link::open(0, 5, &mut rows, &mut places);
    let joined = answered(link.join(1, spaced(20, 5, 9)));
    show(rt, &link, &mats, &files)?;
    let read = answered(link.offer(1, 3, 70));
    println!(rt; "joined {joined}, offered {read}")?;
    carry(rt, &mut link, 2, &mats, &files)?;
    show(rt, &link, shorter(&mats), &files)?;
    let file = answered(link.bulk(1, 40));
    println!(rt; "bulk {file}")?;
    carry(rt, &mut link, 4, &mats, &files)?;
    for _ in 0..15 {
        let _ = link.tick();
    }
    let far = answered(link.offer(1, 4_294_967_295, 32));
    println!(rt; "offered {far}")?;
    carry(rt, &mut link, 1, &mats, &files)
}
