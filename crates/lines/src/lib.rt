// The printed lines: what a text, a channel or a call is answered.
#![tactic(auto)]

ghost use Rattle.std.specs.Prelude.{◌≡◌, Some, IfOk};
ghost use Rattle.lines.specs.Lines.{least_values, printed, channel_line_lem, least_line_lem};
ghost use Rattle.lines.specs.Texts.{Refused, Told, TellsBy};

pub mod cases;
pub mod replies;
mod texts;

use plan::{Channel, Fault, Kind, Plan, read};
use refusals::{Refusal, answered, point_and_count};
use std::alloc::{AllocError, Global};
use std::fmt;

#[derive(Clone, Copy)]
pub enum Line {
    // The first malformed line of a text, by its section and its number there.
    Malformed {
        section: u32,
        line: u32,
    },
    // How the link opened.
    Opened {
        shut: bool,
    },
    // A channel of spaced traffic: how many points were taken.
    Spaced {
        mat: u8,
        answer: Result<u32, Refusal>,
    },
    // A channel of bucket traffic.
    Bucket {
        mat: u8,
        answer: Result<u32, Refusal>,
    },
    // A packet that was offered.
    Offered {
        mat: u8,
        answer: Result<(), Refusal>,
    },
    // A bulk packet.
    Bulk {
        answer: Result<(), Refusal>,
    },
    Released {
        mat: u8,
        answer: Result<(), Refusal>,
    },
    // A packet that ended: its mat (0 for bulk), and the clock after its last slot.
    Ended {
        mat: u8,
        clock: u32,
    },
    // A tick that was refused.
    Stopped {
        refusal: Refusal,
    },
    // The least allowance that would do for a mat's channel, and the point that forbids one less.
    Least {
        mat: u8,
        answer: Result<(u32, u32), Refusal>,
    },
}

impl Line {
    // The line that a channel prints.
    pub fn of_channel(channel: &Channel, answer: Result<u32, Refusal>) -> Line
        ensures { result ≡ channel_line_lem channel.now.kind channel.now.mat answer }
    {
        let mat = channel.mat;
        match channel.kind {
            Kind::First(_) => Line::Spaced { mat, answer },
            Kind::Second(_) => Line::Bucket { mat, answer },
        }
    }

    // The line for what the search for the least allowance found; mat 0 is refused first.
    pub fn of_least(mat: u8, found: Result<(u32, u32), Refusal>) -> Line
        ensures { result ≡ least_line_lem mat found }
    {
        let answer = if mat == 0 {
            Err(Refusal::Limits)
        } else {
            found
        };
        Line::Least { mat, answer }
    }
}

// The lines that a text is answered: what this tells of its plan, or the place of its first malformed line.
pub fn tell_text<F: FnOnce(&Plan) -> Result<Vec<Line>, AllocError>>(
    heap: Global,
    text: &[u8],
    tell: F,
) -> Result<Vec<Line>, AllocError>
    requires { F.IsAlwaysCallable tell }
    ensures { IfOk result (λ ls. Told (TellsBy F.FnOnce tell) text.now ls.items) }
{
    match read(heap, text) {
        Ok(plan) => tell(&plan),
        Err(fault) => refused(heap, fault),
    }
}

// The line of a text that is not a plan.
fn refused(heap: Global, fault: Fault) -> Result<Vec<Line>, AllocError>
    ensures { IfOk result (λ ls. Refused fault ls.items) }
{
    match fault {
        Fault::Malformed { section, line } => {
            Ok(vec![in heap; Line::Malformed { section, line }]?)
        }
        Fault::NoMemory => Err(AllocError),
    }
}

// The least allowance (0 where it is refused) and the point that forbids one less.
fn least_values(answer: Result<(u32, u32), Refusal>) -> (u32, u32)
    ensures { result ≡ least_values answer }
{
    answer.unwrap_or_else(|refusal| (0, refusal.values().0))
}

impl fmt::Display for Line {
    ghost output = { λ l. Some (printed l) };

    fn fmt<W: fmt::Write>(&self, f: &mut fmt::Formatter<W>) -> fmt::Result {
        match *self {
            Line::Malformed { section, line } => write!(f, "E {section} {line}"),
            Line::Opened { shut } => write!(f, "P {}", u32::from(shut)),
            Line::Spaced { mat, answer } => {
                let (point, count) = point_and_count(answer);
                write!(f, "S {mat} {} {point} {count}", answered(answer))
            }
            Line::Bucket { mat, answer } => {
                let (point, count) = point_and_count(answer);
                write!(f, "B {mat} {} {point} {count}", answered(answer))
            }
            Line::Offered { mat, answer } => write!(f, "O {mat} {}", answered(answer)),
            Line::Bulk { answer } => write!(f, "K {}", answered(answer)),
            Line::Released { mat, answer } => write!(f, "R {mat} {}", answered(answer)),
            Line::Ended { mat, clock } => write!(f, "D {mat} {clock}"),
            Line::Stopped { refusal } => write!(f, "T {}", refusal.number()),
            Line::Least { mat, answer } => {
                let (allowance, point) = least_values(answer);
                write!(f, "L {mat} {} {allowance} {point}", answered(answer))
            }
        }
    }
}
