// Reads a plan from standard input and prints the answers, a line each.
#![tactic(auto)]

use lines::replies::reply;
use std::io;
use whole_answers::answer;

fn main(rt: HostRuntime) -> io::Result<()> {
    let mut output = io::writer(&rt);
    reply(
        rt.alloc(),
        &mut rt.stdin(),
        &mut output,
        |text| answer(rt.alloc(), text),
    )
}
