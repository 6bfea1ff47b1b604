// The channels of a plan, each joined with the link.
ghost use Rattle.std.specs.Prelude.{◌≡◌, OnOk};
ghost use Rattle.link.specs.Model.{model};
ghost use Rattle.whole_answers.specs.Plans.{Join, InTurn};
ghost use Rattle.whole_answers.specs.Parts.{Part};

use crate::runs::Run;
use lines::Line;
use plan::Channel;
use std::alloc::AllocError;

impl Run<'_> {
    // Joins the channels in turn, a line each.
    pub(crate) fn join_all(&mut self, channels: &[Channel]) -> Result<(), AllocError>
        ensures { OnOk result (Part (λ cs ds. InTurn Join cs channels.now ds) (model self.old.link) self.old.lines.items (model self.new.link) self.new.lines.items) }
    {
        for channel in channels {
            let answer = self.link.join(channel.mat, channel.kind);
            self.lines.push(Line::of_channel(channel, answer))?;
        }
        Ok(())
    }
}
