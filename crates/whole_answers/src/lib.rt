// What the course programs print that run a plan over a link: the answers, line by line.
#![tactic(auto)]

ghost use Rattle.std.specs.Prelude.{IfOk};
ghost use Rattle.whole_answers.specs.Answers.{Answered, LeastAnswered};

mod asks;
mod calls;
mod joins;
mod runs;

use asks::ask_plan;
use lines::{Line, tell_text};
use runs::run_plan;
use std::alloc::{AllocError, Global};

// The lines to print for a text: for a malformed one its place alone, else what opening, each channel and each call answer.
pub fn answer(heap: Global, text: &[u8]) -> Result<Vec<Line>, AllocError>
    ensures { IfOk result (λ ls. Answered text.now ls.items) }
{
    tell_text(heap, text, |plan| run_plan(heap, plan))
}

// The same with the least allowance of each channel in place of the answers; the plan's calls are not made.
pub fn least(heap: Global, text: &[u8]) -> Result<Vec<Line>, AllocError>
    ensures { IfOk result (λ ls. LeastAnswered text.now ls.items) }
{
    tell_text(heap, text, |plan| ask_plan(heap, plan))
}
