// Bucket traffic: up to `depth` packets at once, and one more every period.
ghost use Rattle.traffic.specs.Bucket.{bucket, bucket_limits, bucket_steps};
ghost use Rattle.traffic.specs.Buckets.{bucket_shaped, bucket_redated, bucket_sound};
ghost use Rattle.std.proofs.Common.{rules};

use crate::{Curve, FRAME, LONGEST_ALLOWANCE, Traffic};

// The most packets that a bucket may hold.
const DEEPEST: u32 = 8;

#[derive(Clone, Copy)]
pub struct Bucket {
    pub period: u32,
    pub longest: u32,
    pub depth: u32,
    pub allowance: u32,
}

impl Curve for Bucket {
    ghost numbers = { λ k. bucket k.period k.longest k.depth k.allowance };

    ghost limits = { λ k. bucket_limits k.period k.longest k.depth k.allowance };

    ghost dated = { λ k e. record { period = k.period; longest = k.longest; depth = k.depth; allowance = e } };

    ghost shaped = { λ k p _ small h. bucket_shaped k.period k.longest k.depth k.allowance p small h };

    ghost redated = { λ k p e _ _ _ _ _. bucket_redated k.period k.longest k.depth k.allowance e };

    ghost redatable = { Prim.search rules };

    fn within(&self, p: u32) -> bool {
        1 <= self.period
            && FRAME % self.period == 0
            && (1..=p).contains(&self.longest)
            && (1..=DEEPEST).contains(&self.depth)
            && (self.longest..=LONGEST_ALLOWANCE).contains(&self.allowance)
    }

    fn allowance(&self) -> u32 {
        self.allowance
    }

    fn longest(&self) -> u32 {
        self.longest
    }

    fn work(&self) -> u32 {
        self.longest * FRAME / self.period
    }

    fn burst(&self) -> u32 {
        self.depth * self.longest
    }

    fn curve(&self, t: u32) -> u64 {
        if t < self.allowance {
            return 0;
        }
        u64::from(self.longest)
            * (u64::from((t - self.allowance) / self.period) + u64::from(self.depth))
    }

    fn next_rise(&self, t: u32) -> Option<u64> {
        if t < self.allowance {
            return Some(u64::from(self.allowance));
        }
        let steps = u64::from((t - self.allowance) / self.period);
        Some(u64::from(self.allowance) + (steps + 1) * u64::from(self.period))
    }

    fn with_allowance(self, allowance: u32) -> Bucket {
        Bucket { allowance, ..self }
    }
}

impl Traffic for Bucket {
    // the credit slot: a period later with each packet, and never behind the present slot
    type State = u64;

    ghost steps = { λ k. bucket_steps k.period k.longest k.depth };

    ghost sound = { λ k p _ _ h. bucket_sound k.period k.longest k.depth k.allowance p h };

    ghost unchanged = { Prim.search rules };

    fn fresh(&self) -> u64 {
        0
    }

    fn step(&self, state: &mut u64, slot: u32, length: u32) -> bool {
        let room = u64::from(slot) + u64::from(self.depth - 1) * u64::from(self.period);
        if !(1..=self.longest).contains(&length) || room < *state {
            return false;
        }
        *state = (*state).max(u64::from(slot)) + u64::from(self.period);
        true
    }
}
