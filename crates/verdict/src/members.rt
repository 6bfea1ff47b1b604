// The channels that count, one after the other: those of the rows, then the one more.
ghost use Rattle.std.specs.Prelude.{◌≡◌};
ghost use Rattle.std.specs.Iterator.{YieldsFirst, item_count};
ghost use Rattle.verdict.specs.Members.{members};

use crate::channels::Channels;

// Those that are still to come.
// An iterator of its own: a chain's type would hold closures, which a struct cannot name.
#[derive(Drop)]
pub(crate) struct Members<'a, K, S> {
    left: Channels<'a, K, S>,
}

impl<'a, K: Copy, S: Copy> Iterator for Members<'a, K, S> {
    type Item = K;

    ghost next_gives = { YieldsFirst (λ s. members s.left) };

    ghost remaining = { item_count (λ s. members s.left) };

    fn next(&mut self) -> Option<K> {
        while let (Some((row, rows)), Some((counts, counted))) = (
            self.left.rows.split_first(),
            self.left.counted.split_first(),
        ) {
            self.left.rows = rows;
            self.left.counted = counted;
            if *counts {
                return Some(row.kind);
            }
        }
        self.left.more.take()
    }
}

impl<'a, K: Copy, S: Copy> Channels<'a, K, S> {
    // The channels that count.
    pub(crate) fn iter(&self) -> Members<'a, K, S>
        ensures { result.left ≡ self.now }
    {
        // not `*self` alone: no proof covers copying a whole struct of a type parameter out of a reference
        Members {
            left: Channels { ..*self },
        }
    }
}
