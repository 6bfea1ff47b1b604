// A point of a row: the earliest goes first, then the lowest row.
ghost use Rattle.pool_runs.specs.Orders.{point_before};
ghost use Rattle.std.proofs.Common.{rules};

use crate::drain::Sample;
use pool::Ordered;
use std::fmt;

#[derive(Clone, Copy)]
pub struct Point {
    pub t: u32,
    pub row: usize,
}

impl Ordered for Point {
    ghost before = { point_before };

    ghost asymmetric = { Prim.search rules };

    ghost transitive = { Prim.search rules };

    fn precedes(&self, other: &Point) -> bool {
        (self.t, self.row) < (other.t, other.row)
    }
}

impl Sample for Point {
    fn sample(i: u16) -> Point {
        let n = u32::from(i);
        Point {
            t: n / 2 * 29 % 61,
            row: usize::from(i / 4 % 3),
        }
    }
}

impl fmt::Display for Point {
    fn fmt<W: fmt::Write>(&self, f: &mut fmt::Formatter<W>) -> fmt::Result {
        write!(f, "{}.{}", self.t, self.row)
    }
}
