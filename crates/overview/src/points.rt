// The points of the granted channels: the demand there and the slack that it leaves.
ghost use Rattle.std.specs.Prelude.{◌≡◌, ◌<◌, ◌≤◌, Decides};
ghost use Rattle.traffic.specs.Curves.{Rises, NextRise};
ghost use Rattle.traffic.specs.Laws.{Within};
ghost use Rattle.verdict.specs.Demand.{curves, largest};
ghost use Rattle.overview.specs.Picture.{channels, closer, NextPoint, Tightest};

use crate::rows::{Picture, Point};
use traffic::{Curve, FRAME};

// Whether a channel's curve rises at t.
pub(crate) fn rises<K: Curve>(kind: &K, t: u32) -> bool
    requires within { Within (K.Curve.limits kind.now) }
    requires some { 0 < t }
    ensures { Decides result (Rises (K.Curve.numbers kind.now).curve t) }
{
    kind.curve(t - 1) < kind.curve(t)
}

impl<'a, K: Curve, S: Copy> Picture<'a, K, S> {
    // The most that the channels can offer from some slot a on and have due by a + t.
    fn demand(&self, t: u32) -> u64
        ensures { result ≡ curves K.Curve.numbers (channels self.now) t }
    {
        self.rows.iter().map(|row| row.kind.curve(t)).sum()
    }

    // The first t after the given one at which the demand rises, or none.
    fn next_rise(&self, t: u32) -> Option<u64>
        ensures { NextRise (curves K.Curve.numbers (channels self.now)) t result }
    {
        self.rows
            .iter()
            .filter_map(|row| row.kind.next_rise(t))
            .min()
    }

    // The first point after t and before the end, if there is one.
    pub(crate) fn point_after(&self, t: u32, end: u32) -> Option<Point>
        ensures { NextPoint (curves K.Curve.numbers (channels self.now)) self.now.longest t end result }
    {
        let next = self.next_rise(t)?;
        if next >= u64::from(end) {
            return None;
        }
        let demand = self.demand(next as u32);
        let slack = next - (demand + u64::from(self.longest - 1));
        Some(Point {
            t: next as u32,
            demand,
            slack,
        })
    }

    // The largest allowance, 0 where there is no channel.
    pub(crate) fn largest_allowance(&self) -> u32
        ensures { (result ≡ largest (λ k. (K.Curve.numbers k).allowance) (channels self.now)) × (result ≤ 40320) }
    {
        self.rows
            .iter()
            .map(|row| row.kind.allowance())
            .max()
            .unwrap_or(0)
    }

    // The point that leaves the least slack, of all points that there are; a look at the first frame after the largest
    // allowance is enough. None where there is no channel.
    pub(crate) fn tightest(&self) -> Option<Point>
        ensures { Tightest (curves K.Curve.numbers (channels self.now)) self.now.longest result }
    {
        let end = self.largest_allowance() + FRAME;
        // a `while`, since `min_by_key` asks for an end, and `successors` has none by its contract
        let mut t = 0;
        let mut least = None;
        while let Some(point) = self.point_after(t, end) {
            t = point.t;
            least = Some(tighter(least, point));
        }
        least
    }
}

// Of a point, if any, and another the one with less slack; the first of two equals.
fn tighter(least: Option<Point>, point: Point) -> Point
    ensures { result ≡ closer least point }
{
    least
        .filter(|other| other.slack <= point.slack)
        .unwrap_or(point)
}
