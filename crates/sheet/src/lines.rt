// The lines of a sheet: those before the first empty one.
ghost use Rattle.std.specs.Prelude.{◌≡◌};
ghost use Rattle.std.specs.Iterator.{YieldsFirstRef, item_count};
ghost use Rattle.sheet.specs.Lines.{sheet_lines};

use std::marker::Model;
use text::lines::Lines;

#[derive(Drop)]
pub struct SheetLines<'a> {
    lines: Lines<'a>,
}

// The lines that are still to come.
impl<'a> Model for SheetLines<'a> {
    ghost use Rattle.std.specs.Prelude.{ℕ, List};
    ghost use Rattle.sheet.specs.Lines.{filled};

    ghost Value = { List (List ℕ) };

    ghost view = { λ s. filled s.lines };
}

impl<'a> SheetLines<'a> {
    pub fn new(bytes: &'a [u8]) -> SheetLines<'a>
        ensures { result ≡ sheet_lines bytes.now }
    {
        SheetLines {
            lines: Lines::new(bytes),
        }
    }
}

impl<'a> Iterator for SheetLines<'a> {
    type Item = &'a [u8];

    ghost next_gives = { YieldsFirstRef (λ lines. lines) };

    ghost remaining = { item_count (λ lines. lines) };

    fn next(&mut self) -> Option<&'a [u8]> {
        let line = self.lines.next()?;
        if line.is_empty() {
            // nothing behind it is of this sheet
            self.lines = Lines::new(b"");
            return None;
        }
        Some(line)
    }
}
