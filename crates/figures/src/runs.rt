// Calls of links whose longest packet has 4 slots.
ghost use Rattle.std.specs.Prelude.{◌≡◌, Ok};

use link::state::{Link, Packet};
use plan::Kind;
use refusals::{Refusal, answered};
use std::io;
use traffic::Row;
use traffic::mixture::MixtureState;

type State = MixtureState<Option<u32>, u64>;

// A row to lend: what it holds is not looked at.
fn row() -> Row<Kind, State> {
    Row {
        kind: Kind::spaced(10, 2, 5),
        state: MixtureState::OfFirst(None),
    }
}

// On a link just opened: the least allowance for packets of 2 slots every 10, and the point that forbids one slot less.
pub fn least_alone() -> Result<(u32, u32), Refusal>
    ensures { result ≡ Ok (5, 4) }
{
    let mut rows = [row(); 4];
    let mut places = [Packet::default(); 8];
    let link = Link::open(0, 4, &mut rows, &mut places);
    link.least(Kind::spaced(10, 2, 0))
}

// Three channels join, each at its least allowance; then the stretch.
pub fn run(rt: &HostRuntime) -> io::Result<()> {
    if let Ok((least, point)) = least_alone() {
        println!(rt; "least {least}, point {point}")?;
    }
    let mut rows = [row(); 4];
    let mut places = [Packet::default(); 8];
    let mut link = Link::open(0, 4, &mut rows, &mut places);
    let first = answered(link.join(1, Kind::spaced(10, 2, 5)));
    let second = answered(link.join(2, Kind::spaced(8, 4, 9)));
    let last = link.join(3, Kind::spaced(12, 3, 18));
    let third = answered(last);
    let count = last.unwrap_or(0);
    println!(rt; "holds {first}, {second}, {third}; count {count}")?;
    match link.stretch() {
        Ok(slots) => println!(rt; "stretch {slots}"),
        Err(refusal) => println!(rt; "stretch refused {}", refusal.number()),
    }
}
