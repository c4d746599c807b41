// The lines of a text, one after the other.
ghost use Rattle.std.specs.Prelude.{◌≡◌};
ghost use Rattle.std.specs.Iterator.{YieldsFirstRef, item_count};
ghost use Rattle.text.specs.Pieces.{lines_of};

use crate::cut::cut;
use std::marker::Model;

// Byte 10 ends a line, and so does the end of the text; a last byte 10 opens no further line.
// Not one type with `Fields`, where a last space does open a field: a flag would have to say which.
#[derive(Drop)]
pub struct Lines<'a> {
    rest: &'a [u8],
}

// The lines that are still to come.
impl<'a> Model for Lines<'a> {
    ghost use Rattle.std.specs.Prelude.{ℕ, List};
    ghost use Rattle.text.specs.Pieces.{lines_of};

    ghost Value = { List (List ℕ) };

    ghost view = { λ lines. lines_of lines.rest.now };
}

impl<'a> Lines<'a> {
    pub fn new(text: &'a [u8]) -> Lines<'a>
        ensures { result ≡ lines_of text.now }
    {
        Lines { rest: text }
    }
}

impl<'a> Iterator for Lines<'a> {
    type Item = &'a [u8];

    ghost next_gives = { YieldsFirstRef (λ lines. lines) };

    ghost remaining = { item_count (λ lines. lines) };

    fn next(&mut self) -> Option<&'a [u8]> {
        if self.rest.is_empty() {
            return None;
        }
        let (line, rest) = cut(b'\n', self.rest);
        self.rest = rest.unwrap_or(&[]);
        Some(line)
    }
}
