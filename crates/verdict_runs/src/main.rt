// Runs the verdict, the least allowance and the stretch on worked channels; what it prints is compared.
#![tactic(auto)]

use std::alloc::Global;
use std::io;
use traffic::Row;
use traffic::bucket::Bucket;
use traffic::mixture::Mixture;
use traffic::spaced::Spaced;
use verdict::channels::Channels;
use verdict::{Unfit, Verdict};

// the kinds of a plan, which this crate does not read
type Kind = Mixture<Spaced, Bucket>;

fn row(period: u32, longest: u32, allowance: u32) -> Row<Kind, ()> {
    Row {
        kind: Kind::spaced(period, longest, allowance),
        state: (),
    }
}

fn print_unfit(rt: &HostRuntime, name: &str, unfit: Unfit) -> io::Result<()> {
    match unfit {
        Unfit::OutsideLimits => println!(rt; "{name}: outside limits"),
        Unfit::Overloaded => println!(rt; "{name}: overloaded"),
        Unfit::Late { point, count } => println!(rt; "{name}: point {point} fails, {count} points"),
    }
}

fn print_verdict(rt: &HostRuntime, name: &str, verdict: Verdict) -> io::Result<()> {
    match verdict {
        Ok(count) => println!(rt; "{name}: granted, {count} points"),
        Err(unfit) => print_unfit(rt, name, unfit),
    }
}

fn print_least(rt: &HostRuntime, name: &str, found: Result<(u32, u32), Unfit>) -> io::Result<()> {
    match found {
        Ok((allowance, point)) => println!(rt; "{name}: least {allowance}, forbidden by {point}"),
        Err(unfit) => print_unfit(rt, name, unfit),
    }
}

// The channels of the worked figures, under packets of up to 4 slots.
fn figures(rt: &HostRuntime) -> io::Result<()> {
    let rows = [row(10, 2, 5), row(8, 4, 9), row(12, 3, 18)];
    let none = Channels::all(&rows[..0]);
    let one = Channels::all(&rows[..1]);
    let two = Channels::all(&rows[..2]);
    let three = Channels::all(&rows);
    print_least(rt, "spaced 10 2", none.least(Kind::spaced(10, 2, 0), 4))?;
    print_least(
        rt,
        "bucket 10 2 3",
        none.least(Kind::bucket(10, 2, 3, 1), 4),
    )?;
    print_least(
        rt,
        "spaced 8 4 beside one",
        one.least(Kind::spaced(8, 4, 0), 4),
    )?;
    print_least(
        rt,
        "spaced 12 3 beside two",
        two.least(Kind::spaced(12, 3, 0), 4),
    )?;
    print_verdict(
        rt,
        "one slot sooner",
        two.with(Kind::spaced(12, 3, 17)).judge(4),
    )?;
    print_verdict(rt, "all three", three.judge(4))?;
    match three.stretch(4) {
        Ok(slots) => println!(rt; "stretch {slots}"),
        Err(unfit) => print_unfit(rt, "stretch", unfit),
    }
}

// A packet of one slot due in every slot: each residue of the frame belongs to one of 33 channels, and the last one,
// with the longest allowance, puts the end of the points as far as it can be.
fn cover(heap: Global) -> io::Result<Vec<Row<Kind, ()>>> {
    let mut rows = Vec::new(heap);
    for (period, first, step, channels) in [
        (30, 1, 2, 15),
        (4, 2, 2, 1),
        (8, 4, 4, 1),
        (16, 8, 8, 1),
        (48, 16, 16, 2),
        (144, 48, 48, 2),
        (720, 144, 144, 4),
        (5040, 720, 720, 6),
    ] {
        for k in 0..channels {
            rows.push(row(period, 1, first + step * k))?;
        }
    }
    Ok(rows)
}

fn main(rt: HostRuntime) -> io::Result<()> {
    figures(&rt)?;
    let rows = cover(rt.alloc())?;
    let all = Channels::all(&rows);
    print_verdict(
        &rt,
        "33 channels",
        all.with(Kind::spaced(5040, 1, 40320)).judge(1),
    )?;
    print_least(&rt, "beside 32", all.least(Kind::spaced(5040, 1, 0), 1))
}
