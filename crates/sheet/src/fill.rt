// The pass over a sheet that fills a table.
ghost use Rattle.std.specs.Prelude.{◌≡◌, [], ◌∷◌, drop, MatchOption};
ghost use Rattle.sheet.specs.Fills.{readable, written};
ghost use Rattle.sheet.specs.Lines.{sheet_lines};

use crate::columns::Columns;
use crate::lines::SheetLines;
use crate::row::row;
use terms::arc::Arc;

// The arc of the next line that names one.
fn next_arc(columns: Columns, lines: &mut SheetLines) -> Option<Arc>
    ensures { MatchOption result (readable columns lines.old ≡ []) (λ arc. readable columns lines.old ≡ arc ∷ readable columns lines.new) }
{
    while let Some(line) = lines.next() {
        if let Ok(arc) = row(columns, line) {
            return Some(arc);
        }
    }
    None
}

// The arcs that a sheet's lines of values name, written to the front of the table, as far as it goes.
#[tactic(auto, using(crate::proofs::Filling::one_more, crate::proofs::Filling::table_full))]
pub fn fill(columns: Columns, bytes: &[u8], table: &mut [Arc])
    ensures { table.new ≡ written (readable columns (drop 1 (sheet_lines bytes.now))) table.old }
{
    let mut lines = SheetLines::new(bytes);
    // the line of names
    lines.next();
    // Not by `zip`, of which a proof does not see what is written to the table.
    for entry in table.iter_mut() {
        let Some(arc) = next_arc(columns, &mut lines) else {
            return;
        };
        *entry = arc;
    }
}
