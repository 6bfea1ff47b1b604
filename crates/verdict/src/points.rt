// The points to come, in the order in which they are taken.
ghost use Rattle.std.specs.Prelude.{◌≡◌, Bool, true, false};
ghost use Rattle.verdict.specs.Points.{point_before};
ghost use Rattle.std.proofs.Common.{rules};

use pool::Ordered;

// The next rise of a row's curve, and what the curve is before it.
#[derive(Clone, Copy)]
pub(crate) struct Point {
    pub(crate) t: u32,
    pub(crate) row: usize,
    pub(crate) level: u64,
}

impl Ordered for Point {
    ghost before = { point_before };

    ghost asymmetric = { Prim.search rules };

    ghost transitive = { Prim.search rules };

    // Not by comparing tuples: a verdict on the most points there can be takes a quarter more instructions so.
    fn precedes(&self, other: &Point) -> bool {
        self.t < other.t || self.t == other.t && self.row < other.row
    }
}
