// Channels joined one after the other at their least allowances, on a link whose longest packet has 4 slots.
use crate::answers::Told;
use crate::course::{row, spaced};
use link::state::{Link, Mat, Packet};
use refusals::answered;
use std::io;
use traffic::spaced::Spaced;

// The least allowance and the point that forbids one slot less; then the answers to holds with one slot less, and with the least.
fn shortest(
    rt: &HostRuntime,
    link: &mut Link<'_, Spaced>,
    mat: Mat,
    period: u32,
    longest: u32,
) -> io::Result<()> {
    match link.least(spaced(period, longest, 0)) {
        Ok((least, forbidden)) => {
            let shorter = Told(link.join(mat, spaced(period, longest, least.wrapping_sub(1))));
            let joined = link.join(mat, spaced(period, longest, least));
            println!(rt;
                "least {least} and {forbidden}; one less {shorter}; least {}, count {}",
                answered(joined),
                joined.unwrap_or(0)
            )
        }
        Err(refusal) => println!(rt; "least refused {}", refusal.number()),
    }
}

pub fn run(rt: &HostRuntime) -> io::Result<()> {
    let mut rows = [row(); 4];
    let mut places = [Packet::default(); 8];
    let mut link = Link::open(0, 4, &mut rows, &mut places);
    shortest(rt, &mut link, 1, 10, 2)?;
    shortest(rt, &mut link, 2, 8, 4)?;
    shortest(rt, &mut link, 3, 12, 3)?;
    match link.stretch() {
        Ok(slots) => println!(rt; "stretch {slots}"),
        Err(refusal) => println!(rt; "stretch refused {}", refusal.number()),
    }
}
