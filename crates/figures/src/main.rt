// The worked figures of links: proved of every link that they speak of, and some of them run.
#![tactic(auto)]

ghost use Rattle.figures.specs.Figures.{Figures};

mod runs;

use std::io;

// The figures are as told.
pub fn figures_stand()
    ensures { Figures }
{}

fn main(rt: HostRuntime) -> io::Result<()> {
    figures_stand();
    runs::run(&rt)
}
