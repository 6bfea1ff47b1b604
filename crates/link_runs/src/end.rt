// The end of the clock: 2,000,000,000 ticks on an idle link, and one more.
use crate::course::row;
use link::state::{Link, Packet};
use refusals::answered;
use std::io;

pub fn run(rt: &HostRuntime) -> io::Result<()> {
    let mut rows = [row(); 32];
    let mut places = [Packet::default(); 256];
    let mut link = Link::open(0, 5, &mut rows, &mut places);
    for _ in 0..2_000_000_000u32 {
        let _ = link.tick();
    }
    let last = answered(link.tick());
    let clock = link.clock();
    println!(rt; "tick at {clock}: {last}")
}
