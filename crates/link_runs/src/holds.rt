// Holds that no held row has: of another link, stale, of a released row.
use crate::course::{row, spaced};
use link::state::{Hold, Link, Mat, Packet};
use refusals::{Refusal, answered};
use std::io;
use traffic::spaced::Spaced;

// Confirms the hold; where it is refused, cancels the hold that came back. The two answers.
fn settle(link: &mut Link<'_, Spaced>, hold: Hold) -> (Result<(), Refusal>, Result<(), Refusal>) {
    match link.confirm(hold) {
        Ok(()) => (Ok(()), Ok(())),
        Err((refusal, back)) => (Err(refusal), link.cancel(back)),
    }
}

fn held(link: &mut Link<'_, Spaced>, mat: Mat) -> Result<Hold, Refusal> {
    let (hold, _) = link.hold(mat, spaced(20, 5, 9))?;
    Ok(hold)
}

// A hold of one link is given to another.
fn foreign(
    rt: &HostRuntime,
    here: &mut Link<'_, Spaced>,
    there: &mut Link<'_, Spaced>,
) -> io::Result<()> {
    match held(there, 1) {
        Ok(hold) => {
            let (confirm, cancel) = settle(here, hold);
            println!(rt; "foreign: {}, {}", answered(confirm), answered(cancel))
        }
        Err(refusal) => println!(rt; "foreign: no hold, {}", refusal.number()),
    }
}

// A row that is released while held is free, and its hold is of no row; the mat can be held again.
fn released(rt: &HostRuntime, link: &mut Link<'_, Spaced>) -> io::Result<()> {
    match held(link, 2) {
        Ok(hold) => {
            let release = answered(link.release(2));
            let kept = match held(link, 2) {
                Ok(next) => settle(link, next).0,
                Err(refusal) => Err(refusal),
            };
            let (confirm, cancel) = settle(link, hold);
            println!(rt;
                "released: {release}, held again {}, stale {}, {}",
                answered(kept),
                answered(confirm),
                answered(cancel)
            )
        }
        Err(refusal) => println!(rt; "released: no hold, {}", refusal.number()),
    }
}

pub fn run(rt: &HostRuntime) -> io::Result<()> {
    let mut rows = [row(); 2];
    let mut places = [Packet::default(); 2];
    let mut here = Link::open(1, 5, &mut rows, &mut places);
    let mut more_rows = [row(); 2];
    let mut more_places = [Packet::default(); 2];
    let mut there = Link::open(2, 5, &mut more_rows, &mut more_places);
    foreign(rt, &mut here, &mut there)?;
    released(rt, &mut here)
}
