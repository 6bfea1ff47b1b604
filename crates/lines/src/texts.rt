// A line as it is put together before it is written.
ghost use Rattle.std.specs.Prelude.{◌≡◌, ◌≤◌, [], take, Some};

use std::io;
use std::io::Write;

// The longest line has 31 bytes: a letter, a mat of 3 digits, a number of 2, two of 10, four blanks and the line break.
const LONGEST: usize = 40;

// The bytes so far, in fixed memory: a line needs none of the heap to be written.
#[derive(Drop)]
pub(crate) struct LineText {
    bytes: [u8; LONGEST],
    count: usize,
    ghost fits: { count ≤ 40 },
}

impl LineText {
    pub(crate) fn new() -> LineText
        ensures { result.count ≡ 0 }
    {
        LineText {
            bytes: [0; LONGEST],
            count: 0,
        }
    }

    pub(crate) fn as_slice(&self) -> &[u8]
        ensures { result.now ≡ take self.now.count self.now.bytes }
    {
        &self.bytes[..self.count]
    }
}

// As many bytes as there is room for are added.
impl Write for LineText {
    ghost contents = { λ text. Some (take text.count text.bytes) };

    fn write(&mut self, more: &[u8]) -> io::Result<usize> {
        let added = more.len().min(LONGEST - self.count);
        let end = self.count + added;
        self.bytes[self.count..end].copy_from_slice(&more[..added]);
        self.count = end;
        Ok(added)
    }

    fn flush(&mut self) -> io::Result<()> {
        Ok(())
    }
}
