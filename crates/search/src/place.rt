// What a plan keeps of one place.
ghost use Rattle.std.specs.Prelude.{◌≡◌};
ghost use Rattle.search.specs.Queued.{is_waiting, key_for, entry_key};

use queue::key::Key;
use terms::slack::Slack;

#[derive(Clone, Copy, Debug, Default, PartialEq, Eq)]
pub struct Place {
    // the value: what the search believes the way from here to the landing to cost
    pub g: u32,
    // the smallest offer of the arcs that leave, as the values of their heads stand
    pub rhs: u32,
    // it had its over turn since Closed was emptied
    pub closed: bool,
}

impl Place {
    // Whether the place waits for a turn: neither level nor closed.
    pub(crate) fn waits(self) -> bool
        ensures { result ≡ is_waiting self }
    {
        self.g != self.rhs && !self.closed
    }

    // The key under which the place waits, the estimate from here to it being given.
    pub(crate) fn key(self, slack: Slack, estimate: u32) -> Key
        ensures { result ≡ entry_key (key_for slack.sixteenths estimate self) }
    {
        if self.g > self.rhs {
            Key {
                first: 16 * u64::from(self.rhs)
                    + u64::from(slack.sixteenths()) * u64::from(estimate),
                second: self.rhs,
            }
        } else {
            Key {
                first: 16 * u64::from(self.g) + 16 * u64::from(estimate),
                second: self.g,
            }
        }
    }
}
