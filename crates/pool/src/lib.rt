// The ordered pool: a binary heap over a lent slice. Of its elements, one that no other precedes is taken next.
#![tactic(auto)]

ghost use Rattle.std.specs.Prelude.{◌≡◌, ◌≤◌, Bool, true, false, ◌==◌, length};
ghost use Rattle.pool.specs.Heap.{Heap};

mod heap;

// Which of two elements goes first: a total order up to ties, that is a strict weak order.
// Elements that differ only outside the order are tied, and either may go first.
pub trait Ordered: Copy {
    // whether the first goes before the second; where neither does, the two are tied
    ghost before: { Self → Self → Bool };

    // Whether this element goes before the other.
    fn precedes(&self, other: &Self) -> bool
        ensures { result ≡ before self.now other.now };

    // of two elements at most one goes before the other
    ghost asymmetric: { (x y : Self) → before x y ≡ true → before y x ≡ false };

    // not going before is transitive: with the law above, so are going before and being tied
    ghost transitive: { (x y z : Self) → before y x ≡ false → before z y ≡ false → before z x ≡ false };
}

// The elements lie in the first `count` places, as a heap. The places are lent, since the pool has no memory of its own.
#[derive(Drop)]
pub struct Pool<'a, T: Ordered> {
    places: &'a mut [T],
    count: usize,
    pub ghost fits: { count ≤ length places.now },
    pub ghost heap: { Heap T.Ordered.before places.now count },
}

impl<'a, T: Ordered> Pool<'a, T> {
    ghost use Rattle.pool.specs.Contents.{capacity, Put, Taken, Peeked, next, BeyondKept};

    // An empty pool with a place for each element of the slice.
    pub fn new(places: &'a mut [T]) -> Pool<'a, T>
        ensures empty { result.count ≡ 0 }
        ensures memory { result.places.now ≡ places.old }
        ensures lender { result.places.ghost_name ≡ places.entry.ghost_name }
    {
        Pool { places, count: 0 }
    }

    // How many elements it holds.
    pub fn len(&self) -> usize
        ensures { result ≡ self.now.count }
    {
        self.count
    }

    // Whether it holds none.
    pub fn is_empty(&self) -> bool
        ensures { result ≡ (self.now.count == 0) }
    {
        self.count == 0
    }

    // How many elements there are places for.
    pub fn capacity(&self) -> usize
        ensures { result ≡ capacity self.now }
    {
        self.places.len()
    }

    // Whether all places are taken, so that `put` would refuse.
    pub fn is_full(&self) -> bool
        ensures { result ≡ (self.now.count == capacity self.now) }
    {
        self.count == self.places.len()
    }

    // The element that `take` would remove.
    pub fn peek(&self) -> Option<T>
        ensures next { result ≡ next self.now }
        ensures first { Peeked T.Ordered.before self.now result }
    {
        heap::first(&self.places[..self.count])
    }

    // Adds the element, or gives it back where all places are taken. It moves up one path of the heap: O(log n).
    pub fn put(&mut self, element: T) -> Result<(), T>
        ensures put { Put element self.old self.new result }
        ensures beyond { BeyondKept self.old self.new }
        ensures lender { self.new.places.ghost_name ≡ self.old.places.ghost_name }
    {
        if self.is_full() {
            return Err(element);
        }
        let count = self.count + 1;
        heap::insert(&mut self.places[..count], element);
        self.count = count;
        Ok(())
    }

    // Removes an element that no other precedes. The last one moves down one path of the heap: O(log n).
    #[tactic(auto, using(crate::proofs::Bags::last_kept))]
    pub fn take(&mut self) -> Option<T>
        ensures next { result ≡ next self.old }
        ensures taken { Taken T.Ordered.before self.old self.new result }
        ensures beyond { BeyondKept self.old self.new }
        ensures lender { self.new.places.ghost_name ≡ self.old.places.ghost_name }
    {
        if self.is_empty() {
            return None;
        }
        let count = self.count;
        self.count = count - 1;
        Some(heap::remove_first(&mut self.places[..count]))
    }
}
