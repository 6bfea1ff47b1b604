// The least allowance with which a channel passes beside those that count.
ghost use Rattle.std.specs.Prelude.{◌≡◌, ℕ, ◌≤◌, [], ◌∷◌, ◌++◌};
ghost use Rattle.verdict.specs.Demand.{works, blocking};
ghost use Rattle.verdict.specs.Judged.{Judgeable};
ghost use Rattle.verdict.specs.Least.{beside, LeastIs, Probed, Least};
ghost use Rattle.verdict.specs.Members.{members, rows_counted, size};
ghost use Rattle.verdict.specs.Passes.{Passes};

use crate::Unfit;
use crate::channels::Channels;
use traffic::{Curve, LONGEST_ALLOWANCE};

impl<'a, K: Curve, S: Copy> Channels<'a, K, S> {
    // The first failing point of channels whose works fit, if there is one.
    // That they may be judged is asked here and at `halve` alone: a check would bring back a case that cannot come.
    fn probe(&self, longest: u32) -> Option<u32>
        requires judged { Judgeable K.Curve.limits longest (size self.now) (members self.now) }
        requires works { works K.Curve.numbers (members self.now) ≤ 5040 }
        ensures { Probed K.Curve.numbers (blocking longest) (members self.now) result }
    {
        match self.judge(longest) {
            Err(Unfit::Late { point, .. }) => Some(point),
            _ => None,
        }
    }

    // Halves the range of allowances until the least that passes is left: at most 16 judgements.
    fn halve(&self, widest: K, longest: u32) -> (u32, u32)
        requires judged { Judgeable K.Curve.limits longest (size self.now) (rows_counted self.now ++ widest ∷ []) }
        requires passes { Passes K.Curve.numbers (blocking longest) (beside K.Curve.numbers K.Curve.dated longest (rows_counted self.now) widest 40320) }
        ensures { LeastIs K.Curve.numbers K.Curve.dated longest (rows_counted self.now) widest result.0 result.1 }
    {
        let mut low = widest.longest() - 1;
        let mut high = LONGEST_ALLOWANCE;
        let mut point = 0;
        // a loop, for what is halved is a range: there is no index to count
        while high - low > 1 {
            let middle = low + (high - low) / 2;
            match self.with(widest.with_allowance(middle)).probe(longest) {
                None => high = middle,
                Some(failing) => {
                    low = middle;
                    point = failing;
                }
            }
        }
        (high, point)
    }

    // The least allowance that passes, and the first failing point one slot sooner (0 where it is the longest length).
    // A pair, which the project asks for.
    pub fn least(&self, new: K, longest: u32) -> Result<(u32, u32), Unfit>
        ensures { Least K.Curve.numbers K.Curve.limits K.Curve.dated longest (size self.now) (rows_counted self.now) new result }
    {
        let widest = new.with_allowance(LONGEST_ALLOWANCE);
        self.with(widest).checked(longest)?;
        // given anew, for the law speaks of a kind within its limits that is given another allowance
        self.with(widest.with_allowance(LONGEST_ALLOWANCE))
            .judge(longest)?;
        Ok(self.halve(widest, longest))
    }
}
