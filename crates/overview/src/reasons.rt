// Refusals in words.
use refusals::Refusal;
use std::fmt;

// Why a channel is refused.
#[derive(Clone, Copy)]
pub(crate) struct Reason(pub(crate) Refusal);

impl fmt::Display for Reason {
    fn fmt<W: fmt::Write>(&self, f: &mut fmt::Formatter<W>) -> fmt::Result {
        match self.0 {
            Refusal::Limits => write!(f, "mat 0 or a number outside its limits"),
            Refusal::MatCounted => write!(f, "its mat has a channel already"),
            Refusal::NoRow => write!(f, "32 channels are granted already"),
            Refusal::Overloaded => write!(f, "more slots asked for than there are"),
            Refusal::Late { point, .. } => write!(f, "too much may be due within {point} slots"),
            // no channel of a plan is refused so
            other => write!(f, "refusal {}", other.number()),
        }
    }
}
