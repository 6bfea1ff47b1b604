// A mixture: each channel is of one of two kinds, and may itself be a mixture.
ghost use Rattle.traffic.specs.Mixture.{mixed_numbers, mixed_limits, mixed_dated, mixed_steps};
ghost use Rattle.traffic.specs.declared.mixture.Mixture.TheVariants.{First, Second};
ghost use Rattle.traffic.specs.Mixing.{first_sound, second_sound, first_steps, second_steps};
ghost use Rattle.std.specs.Prelude.{◌≡◌};
ghost use Rattle.std.proofs.Common.{ap};

use crate::bucket::Bucket;
use crate::spaced::Spaced;
use crate::{Curve, Traffic};

#[derive(Clone, Copy)]
pub enum Mixture<K, L> {
    First(K),
    Second(L),
}

#[derive(Clone, Copy)]
pub enum MixtureState<S, U> {
    OfFirst(S),
    OfSecond(U),
}

impl Mixture<Spaced, Bucket> {
    // Packets of at most `longest` slots, at least a period apart.
    pub fn spaced(period: u32, longest: u32, allowance: u32) -> Mixture<Spaced, Bucket>
        ensures { result ≡ First (record { period = period; longest = longest; allowance = allowance }) }
    {
        Mixture::First(Spaced {
            period,
            longest,
            allowance,
        })
    }

    // Up to `depth` packets at once, and one more every period.
    pub fn bucket(period: u32, longest: u32, depth: u32, allowance: u32) -> Mixture<Spaced, Bucket>
        ensures { result ≡ Second (record { period = period; longest = longest; depth = depth; allowance = allowance }) }
    {
        Mixture::Second(Bucket {
            period,
            longest,
            depth,
            allowance,
        })
    }
}

impl<K: Curve, L: Curve> Curve for Mixture<K, L> {
    ghost numbers = { mixed_numbers K.Curve.numbers L.Curve.numbers };

    ghost limits = { mixed_limits K.Curve.limits L.Curve.limits };

    ghost dated = { mixed_dated K.Curve.dated L.Curve.dated };

    ghost shaped = { elim [ First k ↦ K.Curve.shaped k | Second l ↦ L.Curve.shaped l ] };

    ghost redated = { elim [ First k ↦ K.Curve.redated k | Second l ↦ L.Curve.redated l ] };

    ghost redatable = { elim [ First k ↦ K.Curve.redatable k | Second l ↦ L.Curve.redatable l ] };

    fn within(&self, p: u32) -> bool {
        match self {
            Mixture::First(k) => k.within(p),
            Mixture::Second(l) => l.within(p),
        }
    }

    fn allowance(&self) -> u32 {
        match self {
            Mixture::First(k) => k.allowance(),
            Mixture::Second(l) => l.allowance(),
        }
    }

    fn longest(&self) -> u32 {
        match self {
            Mixture::First(k) => k.longest(),
            Mixture::Second(l) => l.longest(),
        }
    }

    fn work(&self) -> u32 {
        match self {
            Mixture::First(k) => k.work(),
            Mixture::Second(l) => l.work(),
        }
    }

    fn burst(&self) -> u32 {
        match self {
            Mixture::First(k) => k.burst(),
            Mixture::Second(l) => l.burst(),
        }
    }

    fn curve(&self, t: u32) -> u64 {
        match self {
            Mixture::First(k) => k.curve(t),
            Mixture::Second(l) => l.curve(t),
        }
    }

    fn next_rise(&self, t: u32) -> Option<u64> {
        match self {
            Mixture::First(k) => k.next_rise(t),
            Mixture::Second(l) => l.next_rise(t),
        }
    }

    fn with_allowance(self, allowance: u32) -> Mixture<K, L> {
        match self {
            Mixture::First(k) => Mixture::First(k.with_allowance(allowance)),
            Mixture::Second(l) => Mixture::Second(l.with_allowance(allowance)),
        }
    }
}

impl<K: Traffic, L: Traffic> Traffic for Mixture<K, L> {
    type State = MixtureState<K::State, L::State>;

    ghost steps = { mixed_steps K.Traffic.steps L.Traffic.steps };

    ghost sound = { elim [
      | First k ↦ λ p least most h. first_sound (K.Curve.numbers k) (K.Traffic.steps k) (K.Traffic.sound k p least most h)
      | Second l ↦ λ p least most h. second_sound (L.Curve.numbers l) (L.Traffic.steps l) (L.Traffic.sound l p least most h)
    ] };

    ghost unchanged = { elim [
      | First k ↦ λ p e least most h lo hi. ap first_steps (K.Traffic.unchanged k p e least most h lo hi)
      | Second l ↦ λ p e least most h lo hi. ap second_steps (L.Traffic.unchanged l p e least most h lo hi)
    ] };

    fn fresh(&self) -> MixtureState<K::State, L::State> {
        match self {
            Mixture::First(k) => MixtureState::OfFirst(k.fresh()),
            Mixture::Second(l) => MixtureState::OfSecond(l.fresh()),
        }
    }

    // A state of the other kind is refused.
    fn step(&self, state: &mut MixtureState<K::State, L::State>, slot: u32, length: u32) -> bool {
        match (self, state) {
            (Mixture::First(k), MixtureState::OfFirst(s)) => k.step(s, slot, length),
            (Mixture::Second(l), MixtureState::OfSecond(u)) => l.step(u, slot, length),
            _ => false,
        }
    }
}
