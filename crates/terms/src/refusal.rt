// Why a call is declined: one table for all of them. docs/REFUSALS.md says who gives each, and exactly when.
ghost use Rattle.std.specs.Prelude.{◌≡◌};
ghost use Rattle.terms.specs.declared.refusal.Refusal.TheVariants.{Sheet};
ghost use Rattle.terms.specs.Refusals.{number_of};

use crate::fault::SheetFault;
use std::error::Error;

#[derive(Clone, Copy, Debug, PartialEq, Eq)]
pub enum Refusal {
    NotBegun,
    OtherGround,
    NoSuchPlace,
    StretchOutside,
    TableShort,
    NoSuchArc,
    CostOutside,
    NotSettled,
    NoWay,
    ListShort,
    // the first fault of the sheet
    Sheet(SheetFault),
    // the lowest arc with an end or a least cost outside
    ArcUnlawful(usize),
    Outside,
    // the lowest arc whose head stands too high above its tail
    HeightStep(usize),
    // the lowest place that no chain reaches
    NotReached(u32),
    QueueFull,
    NoCall,
}

impl Refusal {
    // The number by which the cab program, and whoever drives by it, knows the refusal.
    pub fn number(&self) -> u32
        ensures { result ≡ number_of self.now }
    {
        match self {
            Refusal::NotBegun => 1,
            Refusal::OtherGround => 2,
            Refusal::NoSuchPlace => 3,
            Refusal::StretchOutside => 4,
            Refusal::TableShort => 5,
            Refusal::NoSuchArc => 6,
            Refusal::CostOutside => 7,
            Refusal::NotSettled => 8,
            Refusal::NoWay => 9,
            Refusal::ListShort => 10,
            Refusal::Sheet(_) => 11,
            Refusal::ArcUnlawful(_) => 12,
            Refusal::Outside => 13,
            Refusal::HeightStep(_) => 14,
            Refusal::NotReached(_) => 15,
            Refusal::QueueFull => 16,
            Refusal::NoCall => 17,
        }
    }
}

impl Error for Refusal {}

impl From<SheetFault> for Refusal {
    ghost from_gives = { λ f r. r ≡ Sheet f };

    fn from(f: SheetFault) -> Refusal {
        Refusal::Sheet(f)
    }
}
