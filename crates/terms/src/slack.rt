// The slack: how many sixteenths of the cheapest sum a route may cost, 16 (the cheapest itself) to 160 (ten times).
ghost use Rattle.std.specs.Prelude.{◌≤◌};

use crate::refusal::Refusal;

#[derive(Clone, Copy, Debug, PartialEq, Eq)]
pub struct Slack {
    sixteenths: u32,
    ghost low: { 16 ≤ sixteenths },
    ghost high: { sixteenths ≤ 160 },
}

impl Slack {
    ghost use Rattle.std.specs.Prelude.{◌≡◌};
    ghost use Rattle.terms.specs.Slacks.{SlackFor};

    // The slack of so many sixteenths, declined as "Stretch outside" exactly when they are not 16 to 160.
    // Not a `TryFrom`, whose call would not say that the number counts sixteenths.
    pub fn new(sixteenths: u32) -> Result<Slack, Refusal>
        ensures { SlackFor sixteenths result }
    {
        if !(16..=160).contains(&sixteenths) {
            return Err(Refusal::StretchOutside);
        }
        Ok(Slack { sixteenths })
    }

    pub fn sixteenths(self) -> u32
        ensures { result ≡ self.sixteenths }
    {
        self.sixteenths
    }
}
