// Faults and refusals in a driver's words.
ghost use Rattle.std.specs.Prelude.{Some};
ghost use Rattle.terms.specs.Words.{number_fault_words, line_fault_words, sheet_fault_words, refusal_words};

use crate::fault::{LineFault, NumberFault, SheetFault};
use crate::refusal::Refusal;
use std::fmt;

impl fmt::Display for NumberFault {
    ghost output = { λ fault. Some (number_fault_words fault) };

    fn fmt<W: fmt::Write>(&self, f: &mut fmt::Formatter<W>) -> fmt::Result {
        match self {
            NumberFault::Empty => f.write_str(
                "nothing stands here; single spaces part the numbers",
            ),
            NumberFault::NotADigit => f.write_str(
                "not a whole number; only the digits 0 to 9 may stand here",
            ),
            NumberFault::TooLarge => f.write_str(
                "too large; at most 4294967295, in at most 10 digits",
            ),
        }
    }
}

impl fmt::Display for LineFault {
    ghost output = { λ fault. Some (line_fault_words fault) };

    fn fmt<W: fmt::Write>(&self, f: &mut fmt::Formatter<W>) -> fmt::Result {
        match self {
            LineFault::Field(field, fault) => write!(f, "field {field}: {fault}"),
            LineFault::WrongCount => f.write_str(
                "a line of values has exactly three numbers, parted by single spaces",
            ),
            LineFault::Names => f.write_str(
                "the first line has the names from, to and least, in any order, parted by single spaces",
            ),
        }
    }
}

impl fmt::Display for SheetFault {
    ghost output = { λ fault. Some (sheet_fault_words fault) };

    fn fmt<W: fmt::Write>(&self, f: &mut fmt::Formatter<W>) -> fmt::Result {
        let line = self.line;
        let fault = &self.fault;
        write!(f, "line {line}: {fault}")
    }
}

impl fmt::Display for Refusal {
    ghost output = { λ refusal. Some (refusal_words refusal) };

    fn fmt<W: fmt::Write>(&self, f: &mut fmt::Formatter<W>) -> fmt::Result {
        match self {
            Refusal::NotBegun => f.write_str("no plan has begun"),
            Refusal::OtherGround => f.write_str("the plan began on another ground"),
            Refusal::NoSuchPlace => f.write_str("there is no such place"),
            Refusal::StretchOutside => f.write_str("the slack is not 16 to 160 sixteenths"),
            Refusal::TableShort => f.write_str("there is more than the table holds"),
            Refusal::NoSuchArc => f.write_str("there is no such arc"),
            Refusal::CostOutside => f.write_str(
                "the cost is neither 0 nor from the arc's least cost to 10000",
            ),
            Refusal::NotSettled => f.write_str("the search has not settled"),
            Refusal::NoWay => f.write_str("no open way leads to the landing"),
            Refusal::ListShort => f.write_str("the route has more arcs than the list"),
            Refusal::Sheet(fault) => write!(f, "{fault}"),
            Refusal::ArcUnlawful(arc) => write!(
                f,
                "arc {arc} has an end or a least cost outside its limits"
            ),
            Refusal::Outside => f.write_str("a number is past its limit"),
            Refusal::HeightStep(arc) => write!(f, "arc {arc} climbs by more than its least cost"),
            Refusal::NotReached(place) => write!(f, "no chain reaches place {place}"),
            Refusal::QueueFull => f.write_str("the queue is full"),
            Refusal::NoCall => f.write_str("no call has this form"),
        }
    }
}
