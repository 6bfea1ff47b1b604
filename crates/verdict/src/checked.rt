// The channels with the fact that they may be judged.
ghost use Rattle.std.specs.Prelude.{◌≡◌, Bool, true, false, Decides, IfOk, IfErr};
ghost use Rattle.std.proofs.Props.{props};
ghost use Rattle.verdict.specs.Judged.{Judgeable};
ghost use Rattle.verdict.specs.Members.{members, size};
ghost use Rattle.verdict.specs.declared.Unfit.TheVariants.{OutsideLimits};

use crate::Unfit;
use crate::channels::Channels;
use traffic::Curve;

// Channels that may be judged on a link whose longest packet has `longest` slots.
#[derive(Drop)]
pub(crate) struct Checked<'b, 'a, K: Curve, S> {
    pub(crate) channels: &'b Channels<'a, K, S>,
    pub(crate) longest: u32,
    ghost judgeable: { Judgeable K.Curve.limits longest (size channels.now) (members channels.now) } by { Prim.hlevel props },
}

impl<'a, K: Curve, S: Copy> Channels<'a, K, S> {
    // Whether there is anything to judge: the longest packet, the table and each channel are within their limits.
    fn judgeable(&self, longest: u32) -> bool
        ensures { Decides result (Judgeable K.Curve.limits longest (size self.now) (members self.now)) }
    {
        if !(1..=255).contains(&longest) || self.rows.len() > 32 {
            return false;
        }
        self.iter().all(|k| k.within(longest))
    }

    // The same channels, if there is anything to judge.
    pub(crate) fn checked(&self, longest: u32) -> Result<Checked<'_, 'a, K, S>, Unfit>
        ensures ok { IfOk result (λ checked. (checked.channels.now ≡ self.now) × (checked.longest ≡ longest)) }
        ensures err { IfErr result (λ unfit. (unfit ≡ OutsideLimits) × (Judgeable K.Curve.limits longest (size self.now) (members self.now) → ⊥)) }
    {
        if !self.judgeable(longest) {
            return Err(Unfit::OutsideLimits);
        }
        Ok(Checked {
            channels: self,
            longest,
        })
    }
}
