// The lines of a text, one after the other.
ghost use Rattle.std.specs.Iterator.{YieldsFirstRef, item_count};

use std::marker::Model;

#[derive(Drop)]
pub(crate) struct Lines<'a> {
    pub(crate) rest: &'a [u8],
}

// Seen as the lines that are left.
impl<'a> Model for Lines<'a> {
    ghost use Rattle.std.specs.Prelude.{List, ℕ};
    ghost use Rattle.plan.specs.Format.{cut};

    ghost Value = { List (List ℕ) };

    ghost view = { λ a. cut a.rest.now };
}

impl<'a> Iterator for Lines<'a> {
    type Item = &'a [u8];

    ghost next_gives = { YieldsFirstRef (λ lines. lines) };

    ghost remaining = { item_count (λ lines. lines) };

    // The next line, without the byte 10 that ends it, or none where nothing is left.
    fn next(&mut self) -> Option<&'a [u8]> {
        let text = self.rest;
        if text.is_empty() {
            return None;
        }
        let Some(end) = text.iter().position(|b| *b == b'\n') else {
            self.rest = &[];
            return Some(text);
        };
        self.rest = &text[end + 1..];
        Some(&text[..end])
    }
}
