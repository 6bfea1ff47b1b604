// Worked examples: the laws are not empty, a kind that takes nothing is shut out, and mixtures nest.
ghost use Rattle.std.specs.Prelude.{◌≡◌, true, false};
ghost use Rattle.traffic.specs.Examples.{Examples, IdleShutOut};

use crate::Traffic;
use crate::bucket::Bucket;
use crate::mixture::Mixture;
use crate::spaced::Spaced;

// The worked lists of packets are as told: lawful, asking for so much of what the curve allows, or refused.
#[tactic(auto, using(crate::proofs::Worked::worked))]
pub fn examples_stand()
    ensures { Examples }
{}

// No kind whose step takes nothing keeps the laws.
pub fn idle_shut_out<S>()
    ensures { IdleShutOut S }
{}

// A mixture of mixtures steps as the kind inside it: packets in slots 3, 12 and 13, the second a slot too early.
pub fn nested_steps() -> (bool, bool, bool)
    ensures { result ≡ (true, false, true) }
{
    let inner = Mixture::<Spaced, Bucket>::spaced(10, 2, 5);
    let kind: Mixture<Mixture<Spaced, Bucket>, Spaced> = Mixture::First(inner);
    let mut state = kind.fresh();
    let first = kind.step(&mut state, 3, 2);
    let early = kind.step(&mut state, 12, 2);
    let second = kind.step(&mut state, 13, 2);
    (first, early, second)
}
