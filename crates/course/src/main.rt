// Reads a plan from standard input and prints the answers, a line each.
#![tactic(auto)]

use answers::answer;
use lines::replies::reply;
use std::io;

fn main(rt: HostRuntime) -> io::Result<()> {
    let mut output = io::writer(&rt);
    reply(
        rt.alloc(),
        &mut rt.stdin(),
        &mut output,
        |text| answer(rt.alloc(), text),
    )
}
