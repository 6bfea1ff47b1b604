// Cases whose speed is measured: `speed CASE`. What it prints says what was done, and no times.
#![tactic(auto)]

mod judging;
mod kinds;
mod sending;

use std::{env, io};

// Few repeats of every case.
fn small(rt: &HostRuntime) -> io::Result<()> {
    judging::refused(rt, 10)?;
    judging::points(rt, 10)?;
    judging::least(rt, 10)?;
    sending::idle(rt, 100_000)?;
    sending::busy(rt, 312)
}

// A match, since a table of names would hold function pointers.
fn run(rt: &HostRuntime, case: &str) -> io::Result<()> {
    match case {
        "refused" => judging::refused(rt, 1_000),
        "points" => judging::points(rt, 1_000),
        "least" => judging::least(rt, 1_000),
        "idle" => sending::idle(rt, 2_000_000_000),
        "busy" => sending::busy(rt, 6_250_000),
        "small" => small(rt),
        _ => println!(rt; "cases: refused points least idle busy small"),
    }
}

fn main(rt: HostRuntime) -> io::Result<()> {
    let mut args = env::args(&rt)?;
    let _ = args.next();
    match args.next() {
        Some(case) => run(&rt, case.as_str()),
        None => run(&rt, ""),
    }
}
