// Why a call is refused.
#![tactic(auto)]

ghost use Rattle.std.specs.Prelude.{◌≡◌};
ghost use Rattle.refusals.specs.Refusals.{number, values, refusal_of, answered, point_and_count};

use verdict::Unfit;

#[derive(Clone, Copy, Debug, PartialEq, Eq)]
pub enum Refusal {
    // The link is shut.
    Shut,
    // Mat 0, a kind's limit, or the bytes of a packet.
    Limits,
    // Hold: the mat has a counted row.
    MatCounted,
    // Hold: no row is free, or as many holds were granted as can be counted.
    NoRow,
    // The works are above a frame; for stretch, they fill it.
    Overloaded,
    // The first point that fails, and how many were taken.
    Late { point: u32, count: u32 },
    // No held row has the hold; the mat is not held or live, or for an offer not live.
    NoSuchRow,
    // Offer: the kind does not take the packet in this slot.
    Unlawful,
    // The waiting list is full, or a bulk packet waits already.
    Full,
    // The clock is at its end.
    ClockEnd,
    // Piece: the last tick carried nothing, or there was no tick yet.
    NothingCarried,
    // Piece: the packet's bytes lie beyond that memory.
    BeyondMemory,
}

impl Refusal {
    pub fn number(&self) -> u32
        ensures { result ≡ number self.now }
    {
        match self {
            Refusal::Shut => 1,
            Refusal::Limits => 2,
            Refusal::MatCounted => 3,
            Refusal::NoRow => 4,
            Refusal::Overloaded => 5,
            Refusal::Late { .. } => 6,
            Refusal::NoSuchRow => 7,
            Refusal::Unlawful => 8,
            Refusal::Full => 9,
            Refusal::ClockEnd => 10,
            Refusal::NothingCarried => 11,
            Refusal::BeyondMemory => 12,
        }
    }

    // The failing point and the count of points; 0 and 0 where no point was taken.
    pub fn values(&self) -> (u32, u32)
        ensures { result ≡ values self.now }
    {
        match self {
            Refusal::Late { point, count } => (*point, *count),
            _ => (0, 0),
        }
    }
}

impl From<Unfit> for Refusal {
    ghost from_gives = { λ unfit r. r ≡ refusal_of unfit };

    fn from(unfit: Unfit) -> Refusal {
        match unfit {
            Unfit::OutsideLimits => Refusal::Limits,
            Unfit::Overloaded => Refusal::Overloaded,
            Unfit::Late { point, count } => Refusal::Late { point, count },
        }
    }
}

// The number that a call answers: 0 where it is granted.
pub fn answered<T: Drop>(answer: Result<T, Refusal>) -> u32
    ensures { result ≡ answered answer }
{
    match answer {
        Ok(_) => 0,
        Err(refusal) => refusal.number(),
    }
}

// The failing point (0 if none fails) and how many points were taken.
pub fn point_and_count(answer: Result<u32, Refusal>) -> (u32, u32)
    ensures { result ≡ point_and_count answer }
{
    answer.map_or_else(|refusal| refusal.values(), |count| (0, count))
}
