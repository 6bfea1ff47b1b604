// Schedules: the theory behind the grant rule. Each function stands for a theorem, which is its contract.
#![tactic(auto)]

ghost use Rattle.schedule.specs.Examples.{Examples};
ghost use Rattle.schedule.specs.Theorems.{OnEveryLink, SomeSchedule, OnTime, Needed};

use traffic::Traffic;

// Whatever arrives has a proper schedule, whether the channels pass or not.
pub fn some_schedule<K: Traffic>()
    ensures { OnEveryLink K.Curve.limits (SomeSchedule K.Curve.numbers K.Traffic.steps) }
{}

// Where the channels pass, whatever arrives has a proper schedule in which nothing is late.
pub fn on_time<K: Traffic>()
    ensures { OnEveryLink K.Curve.limits (OnTime K.Curve.numbers K.Traffic.steps) }
{}

// Where they do not pass, some arrivals make every proper schedule late.
pub fn needed<K: Traffic>()
    ensures { OnEveryLink K.Curve.limits (Needed K.Curve.numbers K.Traffic.steps) }
{}

// The theorems are not empty: a channel that passes, with arrivals and their schedule, and one that fails by one slot.
#[tactic(auto, using(crate::proofs::Worked::worked))]
pub fn examples_stand()
    ensures { Examples }
{}
