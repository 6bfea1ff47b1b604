// What the lender of the places finds once the pool has ended.
ghost use Rattle.std.specs.Prelude.{◌≡◌, ◌<◌, [], ◌∷◌, length, take, drop};
ghost use Rattle.std.specs.List.Sorted.{IsPermutation};

use crate::point::Point;
use pool::Pool;

// Puts one point into a pool over these places: when the pool has ended, it lies in the first, and the others are as they were.
pub fn leave(places: &mut [Point], point: Point)
    requires { 0 < length places.old }
    ensures left { IsPermutation (point ∷ []) (take 1 places.new) }
    ensures others { drop 1 places.new ≡ drop 1 places.old }
{
    let mut pool = Pool::new(places);
    let _ = pool.put(point);
}
