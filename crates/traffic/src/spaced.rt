// Spaced traffic: packets at least a period apart.
ghost use Rattle.traffic.specs.Spaced.{spaced, spaced_limits, spaced_steps};
ghost use Rattle.traffic.specs.Spacing.{spaced_shaped, spaced_redated, spaced_sound};
ghost use Rattle.std.specs.Prelude.{◌≡◌};
ghost use Rattle.std.proofs.Common.{rules};

use crate::bucket::Bucket;
use crate::{Curve, Traffic};

#[derive(Clone, Copy)]
pub struct Spaced {
    pub period: u32,
    pub longest: u32,
    pub allowance: u32,
}

impl Spaced {
    // The bucket of depth 1, which has the same limits and the same curve.
    fn as_bucket(&self) -> Bucket
        ensures { result ≡ record { period = self.now.period; longest = self.now.longest; depth = 1; allowance = self.now.allowance } }
    {
        Bucket {
            period: self.period,
            longest: self.longest,
            depth: 1,
            allowance: self.allowance,
        }
    }
}

impl Curve for Spaced {
    ghost numbers = { λ k. spaced k.period k.longest k.allowance };

    ghost limits = { λ k. spaced_limits k.period k.longest k.allowance };

    ghost dated = { λ k e. record { period = k.period; longest = k.longest; allowance = e } };

    ghost shaped = { λ k p _ small h. spaced_shaped k.period k.longest k.allowance p small h };

    ghost redated = { λ k p e _ _ _ _ _. spaced_redated k.period k.longest k.allowance e };

    ghost redatable = { Prim.search rules };

    fn within(&self, p: u32) -> bool {
        self.as_bucket().within(p)
    }

    fn allowance(&self) -> u32 {
        self.allowance
    }

    fn longest(&self) -> u32 {
        self.longest
    }

    fn work(&self) -> u32 {
        self.as_bucket().work()
    }

    fn burst(&self) -> u32 {
        self.as_bucket().burst()
    }

    fn curve(&self, t: u32) -> u64 {
        self.as_bucket().curve(t)
    }

    fn next_rise(&self, t: u32) -> Option<u64> {
        self.as_bucket().next_rise(t)
    }

    fn with_allowance(self, allowance: u32) -> Spaced {
        Spaced { allowance, ..self }
    }
}

impl Traffic for Spaced {
    // the slot of the last packet
    type State = Option<u32>;

    ghost steps = { λ k. spaced_steps k.period k.longest };

    ghost sound = { λ k p _ _ h. spaced_sound k.period k.longest k.allowance p h };

    ghost unchanged = { Prim.search rules };

    fn fresh(&self) -> Option<u32> {
        None
    }

    fn step(&self, state: &mut Option<u32>, slot: u32, length: u32) -> bool {
        let ready = match *state {
            None => 0,
            Some(last) => u64::from(last) + u64::from(self.period),
        };
        if !(1..=self.longest).contains(&length) || u64::from(slot) < ready {
            return false;
        }
        *state = Some(slot);
        true
    }
}
