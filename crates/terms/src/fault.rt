// What can be wrong with a typed text, in three layers: a number, a line, a sheet. Each layer holds the one below it.
ghost use Rattle.std.specs.Prelude.{◌≡◌};
ghost use Rattle.terms.specs.declared.fault.LineFault.TheVariants.{Field};
ghost use Rattle.terms.specs.Faults.{placed_at};

use std::error::Error;

// Why a field is no number.
#[derive(Clone, Copy, Debug, PartialEq, Eq)]
pub enum NumberFault {
    Empty,
    NotADigit,
    TooLarge,
}

// Why a line is no row: one of its fields, counted from 1, or the line as a whole.
#[derive(Clone, Copy, Debug, PartialEq, Eq)]
pub enum LineFault {
    Field(usize, NumberFault),
    WrongCount,
    Names,
}

// Why a text is no sheet: its first faulty line, counted from 1, and what is wrong there.
#[derive(Clone, Copy, Debug, PartialEq, Eq)]
pub struct SheetFault {
    pub line: usize,
    pub fault: LineFault,
}

impl Error for NumberFault {}

impl Error for LineFault {}

impl Error for SheetFault {}

// A fault with the number of the field or the line where it was met, on its way up one layer.
#[derive(Clone, Copy, Debug, PartialEq, Eq)]
pub struct At<F> {
    pub number: usize,
    pub fault: F,
}

// A result with the number of its field or line at its fault.
pub fn placed<T, F>(number: usize, res: Result<T, F>) -> Result<T, At<F>>
    ensures { result ≡ placed_at number res }
{
    res.map_err(|fault| At { number, fault })
}

impl From<At<NumberFault>> for LineFault {
    ghost from_gives = { λ a l. l ≡ Field a.number a.fault };

    fn from(a: At<NumberFault>) -> LineFault {
        LineFault::Field(a.number, a.fault)
    }
}

impl From<At<LineFault>> for SheetFault {
    ghost from_gives = { λ a s. s ≡ record { line = a.number; fault = a.fault } };

    fn from(a: At<LineFault>) -> SheetFault {
        SheetFault {
            line: a.number,
            fault: a.fault,
        }
    }
}
