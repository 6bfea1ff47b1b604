// The verdict: whether the air can carry a set of channels, by their curves alone.
#![tactic(auto)]

ghost use Rattle.std.specs.Prelude.{◌≡◌, ℕ, ◌≤◌, Bool, true, false};
ghost use Rattle.verdict.specs.Judged.{Judged, Exact};
ghost use Rattle.verdict.specs.Members.{members, size};
ghost use Rattle.verdict.specs.Stretches.{Stretched};

pub mod channels;
mod checked;
mod least;
mod members;
mod points;
mod sums;
mod walk;

use channels::Channels;
use traffic::{Curve, FRAME};

// Why channels may not stand together.
#[derive(Clone, Copy, Debug, PartialEq, Eq)]
pub enum Unfit {
    // The longest packet is not 1 to 255, there are more than 32 rows, or a channel is outside its limits: nothing is judged.
    OutsideLimits,
    // The channels ask for more than a frame in each frame.
    Overloaded,
    // The first point that does not fit, and how many were taken, that one included.
    Late { point: u32, count: u32 },
}

// How many points were taken where every one fits, or why the channels are refused.
pub type Verdict = Result<u32, Unfit>;

// The longest packet is an argument and no field: the same channels are judged under several.
impl<'a, K: Curve, S: Copy> Channels<'a, K, S> {
    // Whether the channels may stand together on a link whose longest packet has `longest` slots.
    pub fn judge(&self, longest: u32) -> Verdict
        ensures judged { Judged K.Curve.numbers K.Curve.limits longest (size self.now) (members self.now) result }
        ensures exact { Exact K.Curve.numbers K.Curve.limits longest (size self.now) (members self.now) result }
    {
        let checked = self.checked(longest)?;
        let (works, _) = checked.loads();
        if works > FRAME {
            return Err(Unfit::Overloaded);
        }
        checked.walk()
    }

    // The longest run of slots without a quiet one, by the straight line: refused where the works fill the frame.
    pub fn stretch(&self, longest: u32) -> Result<u64, Unfit>
        ensures { Stretched K.Curve.numbers K.Curve.limits longest (size self.now) (members self.now) result }
    {
        let checked = self.checked(longest)?;
        let (works, bursts) = checked.loads();
        if works >= FRAME {
            return Err(Unfit::Overloaded);
        }
        let slots = u64::from(FRAME) * (u64::from(longest - 1) + u64::from(bursts));
        let spare = u64::from(FRAME - works);
        Ok((slots + (spare - 1)) / spare)
    }
}
