// The channels of the cases, and rows to lend.
use std::alloc::{AllocError, Global};
use traffic::Row;
use traffic::bucket::Bucket;
use traffic::mixture::{Mixture, MixtureState};
use traffic::spaced::Spaced;

// the kinds of a plan, which this crate does not read
pub type Kind = Mixture<Spaced, Bucket>;

pub type Lent = Row<Kind, MixtureState<Option<u32>, u64>>;

pub fn row(kind: Kind) -> Lent {
    Row {
        kind,
        state: MixtureState::OfFirst(None),
    }
}

// 32 channels of packets of one slot: each slot of a frame but the last is the due slot of one of them.
// Their allowances are longer by `blocking` slots.
// The channels of verdict_runs are the same, in rows: a library for this one function of two programs is no plainer.
pub fn cover(heap: Global, blocking: u8) -> Result<Vec<Kind>, AllocError> {
    let mut kinds = Vec::new(heap);
    for (period, first, step, channels) in [
        (30, 1, 2, 15),
        (4, 2, 2, 1),
        (8, 4, 4, 1),
        (16, 8, 8, 1),
        (48, 16, 16, 2),
        (144, 48, 48, 2),
        (720, 144, 144, 4),
        (5040, 720, 720, 6),
    ] {
        for k in 0..channels {
            kinds.push(Kind::spaced(period, 1, first + step * k + u32::from(blocking)))?;
        }
    }
    Ok(kinds)
}
