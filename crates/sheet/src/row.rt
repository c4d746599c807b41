// One line of values.
ghost use Rattle.std.specs.Prelude.{◌≡◌};
ghost use Rattle.sheet.specs.Sheets.{row_of};

use crate::columns::Columns;
use terms::arc::Arc;
use terms::fault::{LineFault, placed};
use text::fields::Fields;
use text::number::number;

// The arc that a line of values names, or what is wrong with the line.
#[tactic(auto, unfolding(crate::specs::Sheets::row_of))]
pub fn row(columns: Columns, line: &[u8]) -> Result<Arc, LineFault>
    ensures { result ≡ row_of columns line.now }
{
    let mut fields = Fields::new(line);
    match (fields.next(), fields.next(), fields.next(), fields.next()) {
        (Some(first), Some(second), Some(third), None) => {
            let x = placed(1, number(first))?;
            let y = placed(2, number(second))?;
            let z = placed(3, number(third))?;
            Ok(columns.arc(x, y, z))
        }
        _ => Err(LineFault::WrongCount),
    }
}
