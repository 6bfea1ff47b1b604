// Reads a plan from standard input and prints a picture of the channels that a link would grant: what may be due within
// the first slots, and how many slots that leaves.
#![tactic(auto)]

ghost use Rattle.std.specs.Prelude.{◌<◌, ◌≤◌, IfOk};
ghost use Rattle.plan.specs.Kinds.{kind_numbers, kind_limits};
ghost use Rattle.answers.specs.Granted.{kinds};
ghost use Rattle.overview.specs.Standing.{Stands};

mod points;
mod reasons;
mod rows;

use answers::decisions::Granted;
use lines::Line;
use plan::{Channel, Fault, Plan, read};
use points::rises;
use reasons::Reason;
use rows::{Picture, Point};
use std::alloc::{AllocError, Global};
use std::io;
use std::io::Read;
use std::iter::successors;
use traffic::Curve;
use traffic::bucket::Bucket;
use traffic::mixture::Mixture;
use traffic::spaced::Spaced;

// The letters of the rows, in order.
const LETTERS: [u8; 32] = *b"ABCDEFGHIJKLMNOPQRSTUVWXYZabcdef";

// How many points are shown at most.
const MOST_POINTS: usize = 40;

// How many marks a bar has at most.
const LONGEST_BAR: u64 = 40;

// The letters of the channels that rise at t, with a dot for each other.
fn marks<K: Curve, S: Copy>(
    heap: Global,
    picture: &Picture<'_, K, S>,
    t: u32,
) -> Result<String, AllocError>
    requires { 0 < t }
{
    picture
        .rows
        .iter()
        .zip(&LETTERS)
        .map(|(row, letter)| {
            if rises(&row.kind, t) {
                char::from(*letter)
            } else {
                '.'
            }
        })
        .collect(heap)
}

// A mark for each slot, cut where there are too many.
fn bar(heap: Global, slots: u64) -> Result<String, AllocError> {
    let mut text = "#".repeat(heap, slots.min(LONGEST_BAR) as usize)?;
    if slots > LONGEST_BAR {
        text.push('+')?;
    }
    Ok(text)
}

// A line for each of the first points: up to twice the largest allowance, and not too many.
fn print_points<K: Curve, S: Copy>(
    rt: &HostRuntime,
    picture: &Picture<'_, K, S>,
) -> io::Result<()> {
    println!(rt; "\n    t demand  slack  rises")?;
    let end = 2 * picture.largest_allowance() + 1;
    let points = successors(picture.point_after(0, end), |point| {
        picture.point_after(point.t, end)
    });
    for Point { t, demand, slack } in points.take(MOST_POINTS) {
        let marks = marks(rt.alloc(), picture, t)?;
        let bar = bar(rt.alloc(), slack)?;
        println!(rt; "{t:>5} {demand:>6} {slack:>6}  {marks} {bar}")?;
    }
    Ok(())
}

// The table of points, and below it the smallest slack of all.
fn print_table<K: Curve, S: Copy>(rt: &HostRuntime, picture: &Picture<'_, K, S>) -> io::Result<()> {
    let Some(Point { t, slack, .. }) = picture.tightest() else {
        return println!(rt; "no channel is granted");
    };
    print_points(rt, picture)?;
    println!(rt; "\nsmallest slack: {slack} slots, at {t}")
}

// The line of a granted channel.
fn print_channel(rt: &HostRuntime, letter: char, channel: &Channel) -> io::Result<()> {
    let mat = channel.mat;
    match channel.kind {
        Mixture::First(
            Spaced {
                period,
                longest,
                allowance,
            },
        ) => println!(rt;
            "{letter} mat {mat}: packets of up to {longest} slots, one every {period}, due within {allowance}"
        ),
        Mixture::Second(
            Bucket {
                period,
                longest,
                depth,
                allowance,
            },
        ) => println!(rt;
            "{letter} mat {mat}: packets of up to {longest} slots, {depth} at once and one every {period}, due within {allowance}"
        ),
    }
}

// Takes the channels in turn, as a link would, and prints what becomes of each. Those granted stand together.
fn take_channels(rt: &HostRuntime, longest: u32, channels: &[Channel]) -> io::Result<Granted>
    requires least { 1 ≤ longest }
    requires most { longest ≤ 255 }
    ensures { IfOk result (λ granted. Stands kind_numbers kind_limits longest (kinds granted)) }
{
    let mut granted = Granted::new(rt.alloc());
    for channel in channels {
        let place = granted.rows().len();
        let decision = granted.decide(longest, channel);
        granted.count(channel, decision)?;
        match decision {
            Ok(_) => print_channel(rt, char::from(LETTERS[place]), channel)?,
            Err(refusal) => println!(rt; "- mat {}: refused, {}", channel.mat, Reason(refusal))?,
        }
    }
    Ok(granted)
}

// The picture of a plan; a link that would open shut has none.
fn print_picture(rt: &HostRuntime, plan: &Plan) -> io::Result<()> {
    let longest = plan.longest;
    if !(1..=255).contains(&longest) {
        return println!(rt; "{}", Line::Opened { shut: true });
    }
    let blocking = longest - 1;
    println!(rt; "longest packet {longest} slots, blocking {blocking} slots")?;
    let granted = take_channels(rt, longest, &plan.channels)?;
    print_table(
        rt,
        &Picture {
            rows: granted.rows(),
            longest,
        },
    )
}

fn main(rt: HostRuntime) -> io::Result<()> {
    let mut text = Vec::new(rt.alloc());
    rt.stdin().read_to_end(&mut text)?;
    match read(rt.alloc(), &text) {
        Ok(plan) => print_picture(&rt, &plan),
        Err(Fault::Malformed { section, line }) => {
            println!(rt; "{}", Line::Malformed { section, line })
        }
        Err(Fault::NoMemory) => Err(AllocError.into()),
    }
}
