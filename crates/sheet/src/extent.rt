// How far a sheet reaches.
ghost use Rattle.std.specs.Prelude.{◌≡◌, length};
ghost use Rattle.sheet.specs.Lines.{sheet_lines, span};

use crate::lines::SheetLines;

// How many lines a sheet has, and how many bytes they take up with the byte 10 after each, told by one pass.
pub fn extent(bytes: &[u8]) -> (usize, usize)
    ensures lines { result.0 ≡ length (sheet_lines bytes.now) }
    ensures bytes { result.1 ≡ span (sheet_lines bytes.now) }
{
    let mut lines = 0;
    let mut taken = 0;
    for line in SheetLines::new(bytes) {
        lines += 1;
        taken += line.len() + 1;
    }
    (lines, taken)
}
