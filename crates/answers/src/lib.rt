// What the course programs print that judge by the verdict alone: the answers to a plan, line by line.
#![tactic(auto)]

ghost use Rattle.std.specs.Prelude.{◌≡◌, IfOk};
ghost use Rattle.answers.specs.Answers.{Answered, LeastAnswered, Told, LeastsTold, ToldBy, opens};
ghost use Rattle.answers.specs.Granted.{Shown};
ghost use Rattle.plan.specs.Format.{script};

pub mod decisions;
pub mod leasts;

use decisions::{Decision, Granted};
use lines::{Line, tell_text};
use plan::{Channel, Plan};
use std::alloc::{AllocError, Global};

// The lines to print for a text: for a malformed one its place alone, else what opening and each channel answer.
pub fn answer(heap: Global, text: &[u8]) -> Result<Vec<Line>, AllocError>
    ensures { IfOk result (λ ls. Answered text.now ls.items) }
{
    tell_text(heap, text, |plan| tell_decisions(heap, plan))
}

// The same with the least allowance of each channel in place of its answer.
pub fn least(heap: Global, text: &[u8]) -> Result<Vec<Line>, AllocError>
    ensures { IfOk result (λ ls. LeastAnswered text.now ls.items) }
{
    tell_text(heap, text, |plan| tell_leasts(heap, plan))
}

// The lines of a plan that tell the decisions.
fn tell_decisions(heap: Global, plan: &Plan) -> Result<Vec<Line>, AllocError>
    ensures { IfOk result (λ ls. Told (script plan.now) ls.items) }
{
    tell(
        heap,
        plan,
        |_, _, channel, decision| Line::of_channel(channel, decision),
    )
}

// The lines of a plan that tell the least allowances.
fn tell_leasts(heap: Global, plan: &Plan) -> Result<Vec<Line>, AllocError>
    ensures { IfOk result (λ ls. LeastsTold (script plan.now) ls.items) }
{
    tell(
        heap,
        plan,
        |longest, granted, channel, _| granted.least(longest, channel),
    )
}

// Whether a link opens whose longest packet has so many slots.
fn opens(longest: u32) -> bool
    ensures { result ≡ opens longest }
{
    (1..=255).contains(&longest)
}

// The lines of a plan: how the link opens and, where it opens, a line that this shows of each channel, decided with those granted before.
fn tell<F: Fn(u32, &Granted, &Channel, Decision) -> Line>(
    heap: Global,
    plan: &Plan,
    line: F,
) -> Result<Vec<Line>, AllocError>
    requires { F.IsAlwaysCallable line }
    ensures { IfOk result (λ ls. ToldBy (Shown F.Fn line) (script plan.now) ls.items) }
{
    let opened = opens(plan.longest);
    let mut lines = vec![in heap; Line::Opened { shut: !opened }]?;
    if !opened {
        return Ok(lines);
    }
    let mut granted = Granted::new(heap);
    for channel in &plan.channels {
        let decision = granted.decide(plan.longest, channel);
        lines.push(line(plan.longest, &granted, channel, decision))?;
        granted.count(channel, decision)?;
    }
    Ok(lines)
}
