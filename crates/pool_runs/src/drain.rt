// Filling a pool with samples, and emptying it in order.
ghost use Rattle.std.specs.Prelude.{◌≡◌, ◌+◌, ◌-◌, ◌<◌, ◌≤◌, length, take};
ghost use Rattle.std.specs.List.Sorted.{IsPermutation, IsSortedWithin};
ghost use Rattle.pool.specs.Contents.{contents, capacity};

use pool::{Ordered, Pool};

// An element type with a run of samples, of which some are tied.
pub trait Sample: Ordered {
    // The i-th sample.
    fn sample(i: u16) -> Self;
}

// Offers so many samples, and answers how many were refused: those for which there was no place.
pub fn fill<T: Sample>(pool: &mut Pool<T>, offers: u16) -> u16
    ensures capacity { capacity pool.new ≡ capacity pool.old }
    ensures count { pool.new.count + result ≡ pool.old.count + offers }
    ensures refused { result ≡ offers - (capacity pool.old - pool.old.count) }
{
    let mut refused = 0;
    for i in 0..offers {
        if pool.put(T::sample(i)).is_err() {
            refused += 1;
        }
    }
    refused
}

// Takes all elements out: the first places of `out` then hold them, in order.
pub fn drain<T: Ordered>(pool: &mut Pool<T>, out: &mut [T]) -> usize
    requires { pool.old.count ≤ length out.old }
    ensures empty { pool.new.count ≡ 0 }
    ensures count { result ≡ pool.old.count }
    ensures order { IsSortedWithin T.Ordered.before out.new 0 result }
    ensures all { IsPermutation (contents pool.old) (take result out.new) }
{
    let count = pool.len();
    for place in out.iter_mut() {
        let Some(first) = pool.take() else { break };
        *place = first;
    }
    count
}
