// A sheet read into a table of arcs.
ghost use Rattle.std.specs.Prelude.{◌≡◌, ◌≤◌, length, IfOk};
ghost use Rattle.sheet.specs.Sheets.{sheet_of, table_after};
ghost use Rattle.sheet.specs.Typed.{ReadsBack};

use crate::check::check;
use crate::extent::extent;
use crate::fill::fill;
use terms::arc::Arc;
use terms::refusal::Refusal;

// What was read: how many arcs, and how many bytes the sheet took up, with the empty line that ends it.
#[derive(Clone, Copy, Debug, PartialEq, Eq)]
pub struct Sheet {
    pub arcs: usize,
    pub end: usize,
}

// Reads the sheet that `bytes` begin with into the front of `table`, or declines and leaves the whole table.
#[tactic(auto, using(crate::proofs::Law::reading), unfolding(crate::specs::Sheets::sheet_of, crate::specs::Sheets::table_after))]
pub fn read(bytes: &[u8], table: &mut [Arc]) -> Result<Sheet, Refusal>
    ensures answer { result ≡ sheet_of bytes.now (length table.old) }
    ensures arcs { table.new ≡ table_after bytes.now table.old }
    ensures within { IfOk result (λ sheet. (sheet.arcs ≤ length table.old) × (sheet.end ≤ length bytes.now)) }
    ensures back { ReadsBack bytes.now table.old result table.new }
{
    let (lines, taken) = extent(bytes);
    let arcs = lines.saturating_sub(1);
    if arcs > table.len() {
        return Err(Refusal::TableShort);
    }
    let columns = check(bytes)?;
    fill(columns, bytes, table);
    let end = (taken + 1).min(bytes.len());
    Ok(Sheet { arcs, end })
}
