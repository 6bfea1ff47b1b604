// Fills and drains pools of packets and of points, with 0, 1, 2 and 256 places.
#![tactic(auto)]

ghost use Rattle.std.specs.Prelude.{◌<◌, ◌≤◌, length};

mod drain;
mod lent;
mod packet;
mod point;

use drain::Sample;
use packet::Packet;
use point::Point;
use pool::Pool;
use std::{fmt, io};

// Offers one sample more than there are places to a pool over the first `size` places, drains it and prints what came, in order.
fn run<T: Sample + fmt::Display>(
    rt: &HostRuntime,
    places: &mut [T],
    out: &mut [T],
    size: u16,
) -> io::Result<()>
    requires small { size < 65535 }
    requires places { size ≤ length places.old }
    requires room { size ≤ length out.old }
{
    let mut pool = Pool::new(&mut places[..usize::from(size)]);
    let refused = drain::fill(&mut pool, size + 1);
    let n = drain::drain(&mut pool, out);
    print!(rt; "places {size}, refused {refused}, taken {n}:")?;
    for x in &out[..n] {
        print!(rt; " {x}")?;
    }
    println!(rt; "")
}

// Pools with few places, and with many.
fn runs<T: Sample + fmt::Display>(
    rt: &HostRuntime,
    places: &mut [T],
    out: &mut [T],
) -> io::Result<()>
    requires places { 256 ≤ length places.old }
    requires room { 256 ≤ length out.old }
{
    for size in [0, 1, 2, 256] {
        run(rt, places, out, size)?;
    }
    Ok(())
}

// A waiting list of two places: one packet of three is given back, and the one due first goes first.
fn waiting_list(rt: &HostRuntime) -> io::Result<()> {
    let mut places = [Packet::sample(0); 2];
    let mut waiting = Pool::new(&mut places);
    for i in 0..3 {
        if let Err(packet) = waiting.put(Packet::sample(i)) {
            println!(rt; "given back {packet}")?;
        }
    }
    while let Some(packet) = waiting.take() {
        println!(rt; "taken {packet}")?;
    }
    Ok(())
}

// One place of two is used, and the lender has both back.
fn lender(rt: &HostRuntime) -> io::Result<()> {
    let mut places = [Point::sample(0); 2];
    lent::leave(&mut places, Point { t: 7, row: 1 });
    let [first, second] = places;
    println!(rt; "left with the lender {first} {second}")
}

fn main(rt: HostRuntime) -> io::Result<()> {
    println!(rt; "packets, as due.mat.count")?;
    runs(
        &rt,
        &mut [Packet::sample(0); 256],
        &mut [Packet::sample(0); 256],
    )?;
    println!(rt; "points, as t.row")?;
    runs(
        &rt,
        &mut [Point::sample(0); 256],
        &mut [Point::sample(0); 256],
    )?;
    waiting_list(&rt)?;
    lender(&rt)
}
