// Whether each channel of a plan is granted, in turn.
ghost use Rattle.std.specs.Prelude.{◌≡◌, [], ◌∷◌, ◌++◌, vec_len, OnOk, ◌==◌};
ghost use Rattle.std.specs.List.{list_any};
ghost use Rattle.answers.specs.Decisions.{early, Decided, counted};
ghost use Rattle.answers.specs.Granted.{mats, kinds, listed, LeastTold};

use admission::{judge, least};
use lines::Line;
use plan::{Channel, Kind};
use refusals::Refusal;
use std::alloc::{AllocError, Global};
use traffic::{Curve, Row};
use verdict::channels::Channels;

// What becomes of a channel: how many points were taken where the air can carry it with those granted before, or why it is refused.
pub type Decision = Result<u32, Refusal>;

// The channels granted so far, in the order of their grants: each row's state is the mat.
#[derive(Drop)]
pub struct Granted {
    rows: Vec<Row<Kind, u8>>,
}

impl Granted {
    // None yet.
    pub fn new(heap: Global) -> Granted
        ensures mats { mats result ≡ [] }
        ensures kinds { kinds result ≡ [] }
    {
        Granted {
            rows: Vec::new(heap),
        }
    }

    // Their rows.
    pub fn rows(&self) -> &[Row<Kind, u8>]
        ensures { result.now ≡ self.now.rows.items }
    {
        self.rows.as_slice()
    }

    // A granted channel is counted from then on.
    pub fn count(&mut self, channel: &Channel, decision: Decision) -> Result<(), AllocError>
        ensures mats { OnOk result (mats self.new ≡ counted decision channel.now.mat (mats self.old)) }
        ensures kinds { OnOk result (kinds self.new ≡ counted decision channel.now.kind (kinds self.old)) }
    {
        if decision.is_ok() {
            self.rows.push(Row {
                kind: channel.kind,
                state: channel.mat,
            })?;
        }
        Ok(())
    }

    // The refusal that comes before any judging: the smallest number that applies.
    fn check(&self, longest: u32, channel: &Channel) -> Result<(), Refusal>
        ensures { result ≡ early longest (mats self.now) (vec_len self.now.rows) channel.now }
    {
        if channel.mat == 0 || !channel.kind.within(longest) {
            return Err(Refusal::Limits);
        }
        if has_row(&self.rows, channel.mat) {
            return Err(Refusal::MatCounted);
        }
        if self.rows.len() >= 32 {
            return Err(Refusal::NoRow);
        }
        Ok(())
    }

    // What becomes of a channel on a link whose longest packet has so many slots, given those granted so far.
    // The longest packet is an argument and no field: the same channels can be asked of under several.
    pub fn decide(&self, longest: u32, channel: &Channel) -> Decision
        ensures { Decided longest (mats self.now) (kinds self.now) channel.now result }
    {
        self.check(longest, channel)?;
        let together = Channels::all(&self.rows).with(channel.kind);
        judge(&together, longest).map_err(Refusal::from)
    }

    // The least allowance with which a channel would pass beside those granted so far; its own is not looked at.
    pub fn least(&self, longest: u32, channel: &Channel) -> Line
        ensures { LeastTold longest (vec_len self.now.rows) (listed self.now) channel.now result }
    {
        let found = least(&Channels::all(&self.rows), channel.kind, longest);
        Line::of_least(channel.mat, found.map_err(Refusal::from))
    }
}

// Whether a mat has one of these rows.
fn has_row(rows: &[Row<Kind, u8>], mat: u8) -> bool
    ensures { result ≡ list_any (λ r. r.state == mat) rows.now }
{
    rows.iter().any(|row| row.state == mat)
}
