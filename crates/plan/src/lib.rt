// Reads a plan: the longest packet of a link, its channels and the calls to run on it.
#![tactic(auto)]

ghost use Rattle.std.specs.Prelude.{◌≡◌, ◌≤◌, length};
ghost use Rattle.plan.specs.Reading.{Read, WrittenAgain, ReadBack};
ghost use Rattle.plan.specs.declared.Fault.TheVariants.{NoMemory};

mod cursor;
mod entries;
mod fields;
mod sections;

use cursor::Lines;
use entries::Longest;
use sections::Reader;
use std::alloc::{AllocError, AllocFailed, Global};
use traffic::bucket::Bucket;
use traffic::mixture::Mixture;
use traffic::spaced::Spaced;

// The traffic kinds that a plan can ask for.
pub type Kind = Mixture<Spaced, Bucket>;

// A channel to hold and confirm.
#[derive(Clone, Copy)]
pub struct Channel {
    pub mat: u8,
    pub kind: Kind,
}

// A call on the running link.
#[derive(Clone, Copy, Debug, PartialEq, Eq)]
pub enum Call {
    Offer { mat: u8, bytes: u32 },
    Bulk { bytes: u32 },
    Ticks { count: u32 },
    Release { mat: u8 },
}

// A plan as it was read.
#[derive(Drop)]
pub struct Plan {
    pub longest: u32,
    pub channels: Vec<Channel>,
    pub calls: Vec<Call>,
}

// Why a text was not read: its first malformed line (line 0 is a section's count), or no memory.
#[derive(Clone, Copy, Debug, PartialEq, Eq)]
pub enum Fault {
    Malformed { section: u32, line: u32 },
    NoMemory,
}

// Both are written by hand: a derived From has no contract, and the answer of `read` names the case.
impl From<AllocError> for Fault {
    ghost from_gives = { λ _ r. r ≡ NoMemory };

    fn from(_e: AllocError) -> Fault {
        Fault::NoMemory
    }
}

impl<T: Drop> From<AllocFailed<T>> for Fault {
    ghost from_gives = { λ _ r. r ≡ NoMemory };

    fn from(_e: AllocFailed<T>) -> Fault {
        Fault::NoMemory
    }
}

// The plan that the text writes, or the first line at which the text stops being the beginning of a plan.
#[tactic(auto, using(crate::proofs::Laws::laws))]
pub fn read(heap: Global, text: &[u8]) -> Result<Plan, Fault>
    ensures answered { Read text.now result }
    ensures written_again { WrittenAgain text.now result }
    ensures read_back { ReadBack text.now result }
{
    if text.len() > 16384 {
        return Err(Fault::Malformed {
            section: 0,
            line: 0,
        });
    }
    plan_of(heap, text)
}

// The answer to a text that is not too long: its three sections, and then no further line.
fn plan_of(heap: Global, text: &[u8]) -> Result<Plan, Fault>
    requires { length text.now ≤ 16384 }
    ensures { Read text.now result }
{
    let mut reader = Reader {
        heap,
        lines: Lines { rest: text },
        section: 1,
    };
    if reader.count()? != 1 {
        return Err(reader.malformed(0));
    }
    let longest: Longest = reader.entry(1)?;
    let channels = reader.section(2)?;
    let calls: Vec<Call> = reader.section(3)?;
    match reader.lines.next() {
        None => Ok(Plan {
            longest: longest.slots,
            channels,
            calls,
        }),
        Some(_) => Err(reader.malformed(calls.len() as u32 + 1)),
    }
}
