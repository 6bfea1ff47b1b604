// The least allowance of each channel of a plan, written as soon as it is found: a search may take long.
ghost use Rattle.std.specs.Prelude.{◌≡◌, List, OnOk, IfSome};
ghost use Rattle.std.specs.Io.KnownBytes.{Appends};
ghost use Rattle.plan.specs.Format.{script};
ghost use Rattle.lines.specs.Replies.{written};
ghost use Rattle.lines.specs.declared.Line.{Line};
ghost use Rattle.answers.specs.Answers.{LeastAnswered, LeastsTold};

use crate::decisions::Granted;
use crate::opens;
use lines::Line;
use lines::replies::write_line;
use plan::{Fault, Plan, read};
use std::alloc::{AllocError, Global};
use std::io;
use std::io::{Read, Write};

// Reads all of a text and writes the lines of `least`, each as soon as it is found.
pub fn reply_leasts<R: Read, W: Write>(
    heap: Global,
    input: &mut R,
    output: &mut W,
) -> io::Result<()>
    ensures { OnOk result (IfSome (R.remaining input.old) (λ text. (ls : List Line) × LeastAnswered text ls × Appends (W.contents output.old) (W.contents output.new) (written ls))) }
{
    let mut text = Vec::new(heap);
    input.read_to_end(&mut text)?;
    write_text(heap, &text, output)
}

// Writes the lines of a text.
fn write_text<W: Write>(heap: Global, text: &[u8], output: &mut W) -> io::Result<()>
    ensures { OnOk result ((ls : List Line) × LeastAnswered text.now ls × Appends (W.contents output.old) (W.contents output.new) (written ls)) }
{
    match read(heap, text) {
        Ok(plan) => write_plan(heap, &plan, output),
        Err(Fault::Malformed { section, line }) => {
            write_line(output, &Line::Malformed { section, line })
        }
        Err(Fault::NoMemory) => Err(AllocError.into()),
    }
}

// Writes the lines of a plan.
fn write_plan<W: Write>(heap: Global, plan: &Plan, output: &mut W) -> io::Result<()>
    ensures { OnOk result ((ls : List Line) × LeastsTold (script plan.now) ls × Appends (W.contents output.old) (W.contents output.new) (written ls)) }
{
    let opened = opens(plan.longest);
    write_line(output, &Line::Opened { shut: !opened })?;
    if !opened {
        return Ok(());
    }
    let mut granted = Granted::new(heap);
    for channel in &plan.channels {
        let line = granted.least(plan.longest, channel);
        write_line(output, &line)?;
        let decision = granted.decide(plan.longest, channel);
        granted.count(channel, decision)?;
    }
    Ok(())
}
