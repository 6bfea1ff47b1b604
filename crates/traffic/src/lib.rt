// Traffic kinds: what a channel may send, and how much of the air it may ask for.
#![tactic(auto)]

ghost use Rattle.std.specs.Prelude.{◌≡◌, ℕ, ◌≤◌, Bool, true};
ghost use Rattle.traffic.specs.Arrivals.{Steps, Stepped};
ghost use Rattle.traffic.specs.Curves.{Numbers, NextRise};
ghost use Rattle.traffic.specs.Laws.{Within, CurveLaws, Redated, TrafficLaws};

pub mod bucket;
pub mod examples;
pub mod mixture;
pub mod spaced;

// A frame: 5,040 slots, which every period allowed divides.
pub const FRAME: u32 = 5040;

// The longest allowance that a channel may declare.
pub const LONGEST_ALLOWANCE: u32 = 8 * FRAME;

// A channel as the grant rule sees it: its numbers and its demand bound function.
pub trait Curve: Copy {
    ghost numbers: { Self → Numbers };

    // whether the declared numbers keep their limits on a link whose longest packet has p slots
    ghost limits: { Self → ℕ → Bool };

    // the same channel with another allowance
    ghost dated: { Self → ℕ → Self };

    // Whether the limits hold under this longest packet.
    fn within(&self, p: u32) -> bool
        ensures { result ≡ limits self.now p };

    fn allowance(&self) -> u32
        requires { Within (limits self.now) }
        ensures { result ≡ (numbers self.now).allowance };

    fn longest(&self) -> u32
        requires { Within (limits self.now) }
        ensures { result ≡ (numbers self.now).longest };

    fn work(&self) -> u32
        requires { Within (limits self.now) }
        ensures { result ≡ (numbers self.now).work };

    fn burst(&self) -> u32
        requires { Within (limits self.now) }
        ensures { result ≡ (numbers self.now).burst };

    fn curve(&self, t: u32) -> u64
        requires { Within (limits self.now) }
        ensures { result ≡ (numbers self.now).curve t };

    // The first t after the given one at which the curve rises, or none.
    fn next_rise(&self, t: u32) -> Option<u64>
        requires { Within (limits self.now) }
        ensures { NextRise (numbers self.now).curve t result };

    fn with_allowance(self, allowance: u32) -> Self
        ensures { result ≡ dated self allowance };

    ghost shaped: { (k : Self) (p : ℕ) → 1 ≤ p → p ≤ 255 → limits k p ≡ true → CurveLaws p (numbers k) };

    ghost redated: { (k : Self) (p e : ℕ) → 1 ≤ p → p ≤ 255 → limits k p ≡ true → (numbers k).longest ≤ e → e ≤ 40320 → Redated (numbers k) e (numbers (dated k e)) };

    ghost redatable: { (k : Self) (p e : ℕ) → 1 ≤ p → p ≤ 255 → limits k p ≡ true → (numbers k).longest ≤ e → e ≤ 40320 → limits (dated k e) p ≡ true };
}

// A channel that admits packets: beside its curve, a state about the packets so far and a step.
pub trait Traffic: Curve {
    type State: Copy;

    ghost steps: { Self → Steps Self.State };

    // The state that has seen no packet.
    fn fresh(&self) -> Self::State
        requires { Within (Self.Curve.limits self.now) }
        ensures { result ≡ (steps self.now).fresh };

    // Whether a packet of this length is lawful in this slot; if so the state has seen it, else the state is as it was.
    fn step(&self, state: &mut Self::State, slot: u32, length: u32) -> bool
        requires { Within (Self.Curve.limits self.now) }
        ensures { Stepped ((steps self.now).step state.old slot length) state.old state.new result };

    ghost sound: { (k : Self) (p : ℕ) → 1 ≤ p → p ≤ 255 → Self.Curve.limits k p ≡ true → TrafficLaws (Self.Curve.numbers k) (steps k) };

    ghost unchanged: { (k : Self) (p e : ℕ) → 1 ≤ p → p ≤ 255 → Self.Curve.limits k p ≡ true → (Self.Curve.numbers k).longest ≤ e → e ≤ 40320 → steps (Self.Curve.dated k e) ≡ steps k };
}

// A row of the memory that a link's owner lends: a channel's declared numbers and its state.
#[derive(Clone, Copy)]
pub struct Row<K, S> {
    pub kind: K,
    pub state: S,
}
