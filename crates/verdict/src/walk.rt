// The walk over the points, from rise to rise.
ghost use Rattle.std.specs.Prelude.{◌≡◌, ℕ, ◌+◌, ◌-◌, ◌*◌, ◌<◌, ◌≤◌, ◌∷◌, ◌++◌, length};
ghost use Rattle.std.specs.Option.{option_to_list};
ghost use Rattle.std.specs.List.Sorted.{IsPermutation};
ghost use Rattle.pool.specs.Contents.{contents, capacity};
ghost use Rattle.verdict.specs.Demand.{curves, horizon, blocking};
ghost use Rattle.verdict.specs.Members.{members, places};
ghost use Rattle.verdict.specs.Points.{Walked};
ghost use Rattle.verdict.specs.Sweeps.{row_curve, Sweep, NextPoint, Replaced, Advanced};

use crate::checked::Checked;
use crate::points::Point;
use crate::{Unfit, Verdict};
use pool::Pool;
use traffic::{Curve, FRAME};

// Puts this point, if any, where there is room.
fn add(points: &mut Pool<'_, Point>, next: Option<Point>)
    requires { points.old.count < capacity points.old }
    ensures room { capacity points.new ≡ capacity points.old }
    ensures count { points.new.count ≤ points.old.count + 1 }
    ensures added { IsPermutation (option_to_list next ++ contents points.old) (contents points.new) }
{
    if let Some(point) = next {
        let _ = points.put(point);
    }
}

// Takes the first point and puts this one, if any, in its place.
fn replace(points: &mut Pool<'_, Point>, next: Option<Point>)
    requires { 0 < points.old.count }
    ensures { Replaced points.old next points.new }
{
    let _ = points.take();
    add(points, next);
}

// The channels with the end of the walk: all points that need a look lie below it.
#[derive(Drop)]
struct Walk<'b, 'a, K: Curve, S> {
    checked: Checked<'b, 'a, K, S>,
    end: u32,
    ghost horizon: { end ≡ horizon K.Curve.numbers (members checked.channels.now) },
    ghost near: { end ≤ 45360 },
}

impl<'b, 'a, K: Curve, S: Copy> Checked<'b, 'a, K, S> {
    // The curve of a row at t, 0 where no channel counts.
    fn curve_at(&self, row: usize, t: u32) -> u64
        ensures value { result ≡ row_curve K.Curve.numbers (places self.now.channels.now) row t }
        ensures bound { result ≤ 45360 + 255 * t }
    {
        match self.channels.at(row) {
            Some(k) => k.curve(t),
            None => 0,
        }
    }

    // The first point that fails and how many points there are up to it; or how many there are in all.
    pub(crate) fn walk(self) -> Verdict
        ensures { Walked (blocking self.entry.longest) (curves K.Curve.numbers (members self.entry.channels.now)) (horizon K.Curve.numbers (members self.entry.channels.now)) result }
    {
        let end = self.largest_allowance() + FRAME;
        let walk = Walk { checked: self, end };
        walk.run()
    }
}

impl<'b, 'a, K: Curve, S: Copy> Walk<'b, 'a, K, S> {
    // The row's first point after t and below the end, if there is one; its curve is at `level` before it.
    fn point_after(&self, row: usize, t: u32, level: u64) -> Option<Point>
        ensures { NextPoint (row_curve K.Curve.numbers (places self.now.checked.channels.now) row) row t level self.now.end result }
    {
        let k = self.checked.channels.at(row)?;
        let next = k.next_rise(t)?;
        if next >= u64::from(self.end) {
            return None;
        }
        Some(Point {
            t: next as u32,
            row,
            level,
        })
    }

    // The first point of each row; a point names its row by number.
    fn fill(&self, points: &mut Pool<'_, Point>)
        requires empty { points.old.count ≡ 0 }
        requires room { capacity points.old ≡ 33 }
        ensures { Sweep (row_curve K.Curve.numbers (places self.now.checked.channels.now)) (length (places self.now.checked.channels.now)) 1 1 self.now.end (contents points.new) 0 }
    {
        for row in 0..self.checked.channels.len() {
            let first = self.point_after(row, 0, 0);
            add(points, first);
        }
    }

    // Moves one row past its rise at t and answers the new sum; or none where no row rises at t any more.
    fn advance(&self, points: &mut Pool<'_, Point>, t: u32, sum: u64) -> Option<u64>
        requires { Sweep (row_curve K.Curve.numbers (places self.now.checked.channels.now)) (length (places self.now.checked.channels.now)) t (t + 1) self.now.end (contents points.old) sum }
        ensures { Advanced (row_curve K.Curve.numbers (places self.now.checked.channels.now)) (length (places self.now.checked.channels.now)) t self.now.end (contents points.old) sum (contents points.new) result }
    {
        let first = points.peek()?;
        if first.t != t {
            return None;
        }
        let level = self.checked.curve_at(first.row, t);
        let next = self.point_after(first.row, t, level);
        replace(points, next);
        Some(sum + (level - first.level))
    }

    // Takes the points in their order, up to the first that fails.
    fn run(&self) -> Verdict
        ensures { Walked (blocking self.now.checked.longest) (curves K.Curve.numbers (members self.now.checked.channels.now)) self.now.end result }
    {
        let longest = self.checked.longest;
        let mut memory = [Point {
            t: 0,
            row: 0,
            level: 0,
        }; 33];
        let mut points = Pool::new(&mut memory);
        self.fill(&mut points);
        let mut sum = 0;
        let mut count = 0;
        // two loops, which the project asks for: the outer one ends by `break` at the first failing point
        'points: loop {
            let t = match points.peek() {
                None => break 'points Ok(count),
                Some(first) => first.t,
            };
            'rows: while let Some(more) = self.advance(&mut points, t, sum) {
                sum = more;
            }
            count += 1;
            if u64::from(t) < sum + u64::from(longest - 1) {
                break 'points Err(Unfit::Late { point: t, count });
            }
        }
    }
}
