// The grant rule, exact: what is refused could not have been carried by any schedule.
#![tactic(auto)]

ghost use Rattle.verdict.specs.Judged.{Judged};
ghost use Rattle.verdict.specs.Least.{Least};
ghost use Rattle.verdict.specs.Members.{members, rows_counted, size};
ghost use Rattle.admission.specs.Exact.{Needful, LeastExact};

use traffic::Traffic;
use verdict::channels::Channels;
use verdict::{Unfit, Verdict};

// Whether the channels may stand together on a link whose longest packet has `longest` slots.
pub fn judge<K: Traffic, S: Copy>(channels: &Channels<'_, K, S>, longest: u32) -> Verdict
    ensures judged { Judged K.Curve.numbers K.Curve.limits longest (size channels.now) (members channels.now) result }
    ensures needful { Needful K.Curve.numbers K.Traffic.steps K.Curve.limits longest (size channels.now) (members channels.now) result }
{
    channels.judge(longest)
}

// The least allowance with which a channel may stand beside the counted rows, and the point that forbids one less.
pub fn least<K: Traffic, S: Copy>(
    channels: &Channels<'_, K, S>,
    new: K,
    longest: u32,
) -> Result<(u32, u32), Unfit>
    ensures least { Least K.Curve.numbers K.Curve.limits K.Curve.dated longest (size channels.now) (rows_counted channels.now) new result }
    ensures exact { LeastExact K.Curve.numbers K.Traffic.steps K.Curve.limits K.Curve.dated longest (size channels.now) (rows_counted channels.now) new result }
{
    channels.least(new, longest)
}
