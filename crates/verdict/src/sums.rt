// What the channels ask for together.
ghost use Rattle.std.specs.Prelude.{◌≡◌, ℕ, ◌≤◌};
ghost use Rattle.verdict.specs.Demand.{works, bursts, largest};
ghost use Rattle.verdict.specs.Members.{members};

use crate::checked::Checked;
use traffic::Curve;

impl<'b, 'a, K: Curve, S: Copy> Checked<'b, 'a, K, S> {
    // The works and the bursts.
    pub(crate) fn loads(&self) -> (u32, u32)
        ensures works { result.0 ≡ works K.Curve.numbers (members self.now.channels.now) }
        ensures bursts { result.1 ≡ bursts K.Curve.numbers (members self.now.channels.now) }
        ensures bursts_bound { result.1 ≤ 1496880 }
    {
        let mut works = 0;
        let mut bursts = 0;
        for k in self.channels.iter() {
            works += k.work();
            bursts += k.burst();
        }
        (works, bursts)
    }

    // The largest allowance, 0 where no channel counts.
    pub(crate) fn largest_allowance(&self) -> u32
        ensures { (result ≡ largest (λ k. (K.Curve.numbers k).allowance) (members self.now.channels.now)) × (result ≤ 40320) }
    {
        let allowances = self.channels.iter().map(|k| k.allowance());
        allowances.max().unwrap_or(0)
    }
}
