// Calls of links that no plan can make, with what they answer.
#![tactic(auto)]

mod answers;
mod causes;
mod course;
mod end;
mod figures;
mod holds;
mod pieces;

use std::io;

fn main(rt: HostRuntime) -> io::Result<()> {
    course::run(&rt)?;
    holds::run(&rt)?;
    figures::run(&rt)?;
    causes::run(&rt)?;
    pieces::run(&rt)?;
    end::run(&rt)
}
