// The channels to judge: the counted rows of a table, and one more or none.
ghost use Rattle.std.specs.Prelude.{◌≡◌, ℕ, ◌+◌, ◌≤◌, [], ◌∷◌, ◌++◌, length, take, None, slice_index_or};
ghost use Rattle.verdict.specs.Members.{places, members, rows_counted, size, kinds};

use traffic::{Curve, Row};

// Rows and marks stay two slices: a link keeps records beside the rows it is lent, and makes the marks for a call.
#[derive(Clone, Copy)]
pub struct Channels<'a, K, S> {
    pub rows: &'a [Row<K, S>],
    // which rows count; rows beyond this slice do not
    pub counted: &'a [bool],
    pub more: Option<K>,
}

// Marks for a table all of whose rows count.
static EVERY_ROW: [bool; 32] = [true; 32];

impl<'a, K: Curve, S: Copy> Channels<'a, K, S> {
    // Every row counts, of up to 32: no more are ever judged.
    pub fn all(rows: &'a [Row<K, S>]) -> Channels<'a, K, S>
        ensures members { members result ≡ kinds (take 32 rows.now) }
        ensures rows { rows_counted result ≡ kinds (take 32 rows.now) }
        ensures size { size result ≡ length rows.now }
    {
        Channels {
            rows,
            counted: &EVERY_ROW,
            more: None,
        }
    }

    // The counted rows and this channel.
    pub fn with(&self, kind: K) -> Channels<'a, K, S>
        ensures members { members result ≡ rows_counted self.now ++ kind ∷ [] }
        ensures rows { rows_counted result ≡ rows_counted self.now }
        ensures size { size result ≡ size self.now }
    {
        Channels {
            more: Some(kind),
            ..*self
        }
    }

    // How many places there are: one for each row, and one more.
    pub(crate) fn len(&self) -> usize
        requires { size self.now ≤ 32 }
        ensures { result ≡ length (places self.now) }
    {
        self.rows.len() + 1
    }

    // The channel at a place, if one counts there.
    pub(crate) fn at(&self, i: usize) -> Option<K>
        ensures { result ≡ slice_index_or (places self.now) i None }
    {
        if i == self.rows.len() {
            return self.more;
        }
        let row = self.rows.get(i)?;
        let counts = *self.counted.get(i)?;
        counts.then_some(row.kind)
    }
}
