// The pass over a sheet that finds its first fault.
ghost use Rattle.sheet.specs.Lines.{sheet_lines};
ghost use Rattle.sheet.specs.Checks.{Checked};

use crate::columns::Columns;
use crate::lines::SheetLines;
use crate::row::row;
use terms::fault::{SheetFault, placed};

// The order of the columns of a sheet without fault, or its first fault.
#[tactic(auto, using(crate::proofs::Checking::beginning))]
pub fn check(bytes: &[u8]) -> Result<Columns, SheetFault>
    ensures { Checked (sheet_lines bytes.now) result }
{
    let mut lines = SheetLines::new(bytes);
    let names = lines.next().unwrap_or(b"");
    let columns = placed(1, Columns::try_from(names))?;
    for (k, line) in lines.enumerate() {
        placed(k + 2, row(columns, line))?;
    }
    Ok(columns)
}
