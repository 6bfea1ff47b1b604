// The calls of a plan, run on the link.
ghost use Rattle.std.specs.Prelude.{◌≡◌, ◌++◌, map, OnOk};
ghost use Rattle.link.specs.Happenings.{ending};
ghost use Rattle.link.specs.Model.{model};
ghost use Rattle.whole_answers.specs.Plans.{Tick, Make, InTurn};
ghost use Rattle.whole_answers.specs.Prints.{end_line};
ghost use Rattle.whole_answers.specs.Parts.{Part};

use crate::runs::Run;
use lines::Line;
use link::state::Sent;
use plan::Call;
use std::alloc::AllocError;

// A line more if a packet ended with the slot before this clock.
fn print_end(carried: Option<Sent>, clock: u32, lines: &mut Vec<Line>) -> Result<(), AllocError>
    ensures { OnOk result (lines.new.items ≡ lines.old.items ++ map end_line (ending carried clock)) }
{
    if let Some(sent) = carried.filter(|sent| sent.ended) {
        let mat = sent.mat;
        lines.push(Line::Ended { mat, clock })?;
    }
    Ok(())
}

impl Run<'_> {
    // So many ticks; a refused one is the last.
    fn ticks(&mut self, count: u32) -> Result<(), AllocError>
        ensures { OnOk result (Part (Tick count) (model self.old.link) self.old.lines.items (model self.new.link) self.new.lines.items) }
    {
        for _ in 0..count {
            match self.link.tick() {
                Ok(carried) => print_end(carried, self.link.clock(), &mut self.lines)?,
                Err(refusal) => {
                    self.lines.push(Line::Stopped { refusal })?;
                    return Ok(());
                }
            }
        }
        Ok(())
    }

    // One call of the plan; packets stand at place 0.
    fn call(&mut self, call: Call) -> Result<(), AllocError>
        ensures { OnOk result (Part (Make call) (model self.old.link) self.old.lines.items (model self.new.link) self.new.lines.items) }
    {
        let line = match call {
            Call::Offer { mat, bytes } => Line::Offered {
                mat,
                answer: self.link.offer(mat, 0, bytes),
            },
            Call::Bulk { bytes } => Line::Bulk {
                answer: self.link.bulk(0, bytes),
            },
            Call::Release { mat } => Line::Released {
                mat,
                answer: self.link.release(mat),
            },
            Call::Ticks { count } => return self.ticks(count),
        };
        self.lines.push(line)?;
        Ok(())
    }

    // The calls in turn.
    pub(crate) fn call_all(&mut self, calls: &[Call]) -> Result<(), AllocError>
        ensures { OnOk result (Part (λ cs ds. InTurn Make cs calls.now ds) (model self.old.link) self.old.lines.items (model self.new.link) self.new.lines.items) }
    {
        for call in calls {
            self.call(*call)?;
        }
        Ok(())
    }
}
