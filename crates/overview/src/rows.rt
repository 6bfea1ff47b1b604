// What the picture shows.
ghost use Rattle.std.proofs.Props.{props};
ghost use Rattle.verdict.specs.Members.{kinds};
ghost use Rattle.overview.specs.Standing.{Stands};

use traffic::{Curve, Row};

// The granted channels of a link whose longest packet has `longest` slots.
#[derive(Drop)]
pub(crate) struct Picture<'a, K: Curve, S> {
    pub(crate) rows: &'a [Row<K, S>],
    pub(crate) longest: u32,
    ghost stands: { Stands K.Curve.numbers K.Curve.limits longest (kinds rows.now) } by { Prim.hlevel props },
}

// A t at which the demand rises: the demand there, and the slots that it leaves beside the blocking.
#[derive(Clone, Copy)]
pub(crate) struct Point {
    pub(crate) t: u32,
    pub(crate) demand: u64,
    pub(crate) slack: u64,
}
