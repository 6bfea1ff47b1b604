// Reads a plan from standard input and prints, for each of its channels in turn, the least allowance that would do beside those
// joined before it.
#![tactic(auto)]

use lines::replies::reply;
use std::io;
use whole_answers::least;

fn main(rt: HostRuntime) -> io::Result<()> {
    let mut output = io::writer(&rt);
    reply(
        rt.alloc(),
        &mut rt.stdin(),
        &mut output,
        |text| least(rt.alloc(), text),
    )
}
