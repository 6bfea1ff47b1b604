// What stands on one line of a section.
ghost use Rattle.std.specs.Prelude.{ℕ, ◌≤◌, List, [], IfOk};
ghost use Rattle.std.specs.Option.{SomeIff};
ghost use Rattle.plan.specs.Lines.{Words, line, Fits, longest_words, channel_words, channel_mats, call_words, call_mats};
ghost use Rattle.plan.specs.Steps.{Reads};

use crate::fields::numbers;
use crate::{Call, Channel, Kind};
use std::alloc::{AllocError, Global};
use traffic::bucket::Bucket;
use traffic::spaced::Spaced;

// An entry of a section, which has a line of its own.
pub(crate) trait Entry: Copy {
    // its letter, and its numbers in order
    ghost words: { Self → Words };

    // the mats among its numbers
    ghost mats: { Self → List ℕ };

    // The entry that this letter and these numbers write, or none.
    fn pick(letter: char, numbers: &[u32]) -> Option<Self>
        ensures { Reads words (Fits words mats) (letter, numbers.now) result };
}

// The longest packet of the link, which has a line of its own as the entries have.
#[derive(Clone, Copy)]
pub(crate) struct Longest {
    pub(crate) slots: u32,
}

// A mat number, at most 255.
fn mat(n: u32) -> Option<u8>
    ensures { SomeIff result (n ≤ 255) n }
{
    u8::try_from(n).ok()
}

impl Entry for Longest {
    ghost words = { λ p. longest_words p.slots };

    ghost mats = { λ _. [] };

    #[tactic(auto, using(crate::proofs::Listed::by_elements))]
    fn pick(letter: char, numbers: &[u32]) -> Option<Longest> {
        match (letter, numbers) {
            ('P', [slots]) => Some(Longest { slots: *slots }),
            _ => None,
        }
    }
}

impl Entry for Channel {
    ghost words = { channel_words };

    ghost mats = { channel_mats };

    #[tactic(auto, using(crate::proofs::Listed::by_elements))]
    fn pick(letter: char, numbers: &[u32]) -> Option<Channel> {
        match (letter, numbers) {
            ('S', [m, period, longest, allowance]) => Some(Channel {
                mat: mat(*m)?,
                kind: Kind::First(Spaced {
                    period: *period,
                    longest: *longest,
                    allowance: *allowance,
                }),
            }),
            ('B', [m, period, longest, depth, allowance]) => Some(Channel {
                mat: mat(*m)?,
                kind: Kind::Second(Bucket {
                    period: *period,
                    longest: *longest,
                    depth: *depth,
                    allowance: *allowance,
                }),
            }),
            _ => None,
        }
    }
}

impl Entry for Call {
    ghost words = { call_words };

    ghost mats = { call_mats };

    #[tactic(auto, using(crate::proofs::Listed::by_elements))]
    fn pick(letter: char, numbers: &[u32]) -> Option<Call> {
        match (letter, numbers) {
            ('O', [m, bytes]) => Some(Call::Offer {
                mat: mat(*m)?,
                bytes: *bytes,
            }),
            ('K', [bytes]) => Some(Call::Bulk { bytes: *bytes }),
            ('T', [count]) => Some(Call::Ticks { count: *count }),
            ('R', [m]) => Some(Call::Release { mat: mat(*m)? }),
            _ => None,
        }
    }
}

// The entry that a line writes, or none.
pub(crate) fn parse<E: Entry>(heap: Global, text: &[u8]) -> Result<Option<E>, AllocError>
    ensures { IfOk result (Reads (λ x. line (E.Entry.words x)) (Fits E.Entry.words E.Entry.mats) text.now) }
{
    let [letter, tail @ ..] = text else {
        return Ok(None);
    };
    let Some(items) = numbers(heap, tail)? else {
        return Ok(None);
    };
    Ok(E::pick(char::from(*letter), &items))
}
