// Reads a plan from standard input and prints, for each of its channels in turn, the least allowance that would do beside those
// granted before it, as soon as it is found.
#![tactic(auto)]

use answers::leasts::reply_leasts;
use std::io;

fn main(rt: HostRuntime) -> io::Result<()> {
    reply_leasts(rt.alloc(), &mut rt.stdin(), &mut io::writer(&rt))
}
