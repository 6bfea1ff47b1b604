// A heap in a slice, mended along one path. The children of the place i are i * 2 + 1 and i * 2 + 2.
ghost use Rattle.std.specs.Prelude.{◌≡◌, ◌+◌, ◌-◌, ◌*◌, ◌<◌, ◌≤◌, ◌∷◌, length, take, drop, Some, IfSome};
ghost use Rattle.std.specs.List.Sorted.{IsPermutation};
ghost use Rattle.pool.specs.Heap.{Heap, Sinking, Best};
ghost use Rattle.pool.specs.Elements.{First, head};

use crate::Ordered;

// The element in place 0, if any: none in the heap goes before it.
pub fn first<T: Ordered>(s: &[T]) -> Option<T>
    requires { Heap T.Ordered.before s.now (length s.now) }
    ensures head { result ≡ head s.now }
    ensures first { IfSome result (λ x. First T.Ordered.before x s.now) }
{
    s.first().copied()
}

// Adds the element in the last place; the others are a heap.
#[tactic(auto, using(crate::proofs::Ends::last_written, crate::proofs::Bags::insert_bag))]
pub fn insert<T: Ordered>(s: &mut [T], element: T)
    requires some { 0 < length s.old }
    requires heap { Heap T.Ordered.before s.old (length s.old - 1) }
    ensures heap { Heap T.Ordered.before s.new (length s.old) }
    ensures bag { IsPermutation (element ∷ take (length s.old - 1) s.old) s.new }
{
    let last = s.len() - 1;
    s[last] = element;
    rise(s);
}

// Removes the element in place 0 from the heap: the others are a heap without the last place.
#[tactic(auto, using(crate::proofs::Ends::root_written, crate::proofs::Bags::remove_bag))]
pub fn remove_first<T: Ordered>(s: &mut [T]) -> T
    requires some { 0 < length s.old }
    requires heap { Heap T.Ordered.before s.old (length s.old) }
    ensures heap { Heap T.Ordered.before s.new (length s.old - 1) }
    ensures head { Some result ≡ head s.old }
    ensures first { First T.Ordered.before result s.old }
    ensures bag { IsPermutation s.old (result ∷ take (length s.old - 1) s.new) }
    ensures last { drop (length s.old - 1) s.new ≡ drop (length s.old - 1) s.old }
{
    let first = s[0];
    let last = s.len() - 1;
    s[0] = s[last];
    sink(&mut s[..last]);
    first
}

// Moves the last element up to where it belongs; the others are a heap. The place goes along a path, so no index is counted.
fn rise<T: Ordered>(s: &mut [T])
    requires some { 0 < length s.old }
    requires heap { Heap T.Ordered.before s.old (length s.old - 1) }
    ensures heap { Heap T.Ordered.before s.new (length s.old) }
    ensures bag { IsPermutation s.old s.new }
{
    let mut i = s.len() - 1;
    while i > 0 {
        let up = parent(i);
        if !s[i].precedes(&s[up]) {
            return;
        }
        s.swap(up, i);
        i = up;
    }
}

// Moves the element in place 0 down to where it belongs, along a path; below it all is a heap.
fn sink<T: Ordered>(s: &mut [T])
    requires { Sinking T.Ordered.before s.old 0 (length s.old) }
    ensures heap { Heap T.Ordered.before s.new (length s.old) }
    ensures bag { IsPermutation s.old s.new }
{
    let mut i = 0;
    while i < s.len() / 2 {
        let child = first_child(s, i);
        if !s[child].precedes(&s[i]) {
            return;
        }
        s.swap(i, child);
        i = child;
    }
}

// The place of which i is a child.
fn parent(i: usize) -> usize
    requires { 0 < i }
    ensures above { result * 2 + 1 ≤ i }
    ensures near { i ≤ result * 2 + 2 }
{
    (i - 1) / 2
}

// The child of i that no other child of i precedes.
fn first_child<T: Ordered>(s: &[T], i: usize) -> usize
    requires { i * 2 + 1 < length s.now }
    ensures within { (i * 2 + 1 ≤ result) × (result ≤ i * 2 + 2) × (result < length s.now) }
    ensures best { Best T.Ordered.before s.now i result (length s.now) }
{
    let left = i * 2 + 1;
    let right = left + 1;
    if right < s.len() && s[right].precedes(&s[left]) {
        right
    } else {
        left
    }
}
