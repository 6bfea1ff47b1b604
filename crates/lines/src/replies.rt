// Answering a text: its lines are written out.
ghost use Rattle.std.specs.Prelude.{◌≡◌, [], ◌∷◌, ◌++◌, Ok, OnOk, IfSome};
ghost use Rattle.std.specs.Fn.{FnOnceReturnsAt};
ghost use Rattle.std.specs.Io.KnownBytes.{Appends};
ghost use Rattle.lines.specs.Lines.{printed};
ghost use Rattle.lines.specs.Replies.{written};

use crate::Line;
use crate::texts::LineText;
use std::alloc::{AllocError, Global};
use std::io;
use std::io::{Read, Write};

// Writes a line with its line break, by one write: so lines of several programs that share a pipe or a file stay whole.
pub fn write_line<W: Write>(output: &mut W, line: &Line) -> io::Result<()>
    ensures { OnOk result (Appends (W.contents output.old) (W.contents output.new) (printed line.now ++ 10 ∷ [])) }
{
    let mut text = LineText::new();
    writeln!(text, "{line}")?;
    output.write_all(text.as_slice())
}

// Writes lines, each with a line break.
fn write_lines<W: Write>(output: &mut W, lines: &[Line]) -> io::Result<()>
    ensures { OnOk result (Appends (W.contents output.old) (W.contents output.new) (written lines.now)) }
{
    for line in lines {
        write_line(output, line)?;
    }
    Ok(())
}

// Reads all of a text and writes the lines that it is answered.
pub fn reply<R: Read, W: Write, F: FnOnce(&[u8]) -> Result<Vec<Line>, AllocError>>(
    heap: Global,
    input: &mut R,
    output: &mut W,
    answer: F,
) -> io::Result<()>
    requires { F.IsAlwaysCallable answer }
    ensures { OnOk result (IfSome (R.remaining input.old) (λ text. (lines : _) × FnOnceReturnsAt F.FnOnce answer text (Ok lines) × Appends (W.contents output.old) (W.contents output.new) (written lines.items))) }
{
    let mut text = Vec::new(heap);
    input.read_to_end(&mut text)?;
    let lines = answer(&text)?;
    write_lines(output, &lines)
}

// Writes the lines that a case is answered, after a line of its own.
pub fn show<W: Write, F: FnOnce(&[u8]) -> Result<Vec<Line>, AllocError>>(
    output: &mut W,
    text: &[u8],
    answer: F,
) -> io::Result<()>
    requires { F.IsAlwaysCallable answer }
    ensures { OnOk result ((lines : _) × FnOnceReturnsAt F.FnOnce answer text.now (Ok lines) × Appends (W.contents output.old) (W.contents output.new) (45 ∷ 45 ∷ 10 ∷ written lines.items)) }
{
    output.write_all(b"--\n")?;
    let lines = answer(text)?;
    write_lines(output, &lines)
}
