// The least allowance that would do for each channel of a plan.
ghost use Rattle.std.specs.Prelude.{◌≡◌, IfOk, OnOk};
ghost use Rattle.plan.specs.Format.{script};
ghost use Rattle.link.specs.Model.{model};
ghost use Rattle.whole_answers.specs.Least.{Asking, LeastTold};

use crate::runs::{Run, blank};
use lines::Line;
use link::state::Packet;
use plan::{Channel, Plan};
use std::alloc::{AllocError, Global};

impl Run<'_> {
    // A line for each channel beside those joined before it, and then the channel is joined with its own allowance.
    fn ask_all(&mut self, channels: &[Channel]) -> Result<(), AllocError>
        ensures { OnOk result (Asking channels.now (model self.old.link) self.old.lines.items (model self.new.link) self.new.lines.items) }
    {
        for channel in channels {
            let found = self.link.least(channel.kind);
            self.lines.push(Line::of_least(channel.mat, found))?;
            let _ = self.link.join(channel.mat, channel.kind);
        }
        Ok(())
    }
}

// The lines of a plan's channels, on a link of 32 rows and 256 places.
pub(crate) fn ask_plan(heap: Global, plan: &Plan) -> Result<Vec<Line>, AllocError>
    ensures { IfOk result (λ ls. LeastTold (script plan.now) ls.items) }
{
    let mut rows = [blank(); 32];
    let mut places = [Packet::default(); 256];
    let mut run = Run::open(heap, plan.longest, &mut rows, &mut places)?;
    if run.link.shut() {
        return Ok(run.lines);
    }
    run.ask_all(&plan.channels)?;
    Ok(run.lines)
}
