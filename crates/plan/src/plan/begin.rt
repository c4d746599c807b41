// Begin.
ghost use Rattle.std.specs.Prelude.{◌≡◌, length, None, Ok};
ghost use Rattle.method.specs.Pasts.{Accepted, begun};
ghost use Rattle.plan.specs.Answers.{refusal_in};
ghost use Rattle.plan.specs.Declines.{begin_with, begin_declines};
ghost use Rattle.plan.specs.Stands.{Beyond, Holds, stand_of, Unless};
ghost use Rattle.plan.specs.declared.answer.Answer.TheVariants.{Done};

use crate::admit::is_short;
use crate::answer::Answer;
use crate::header::Header;
use crate::layout::{cost_least, open_landing};
use crate::phase::Phase;
use crate::plan::Plan;
use ground::ground::Ground;
use queue::entry::Entry;
use queue::key::Key;
use search::aim::Aim;
use search::place::Place;
use terms::refusal::Refusal;
use terms::slack::Slack;

impl Plan {
    // Begins anew, whatever the plan and the tables held: each arc costs its least, no place has a value, and nothing is closed or counted.
    pub fn begin<G: Ground>(
        &mut self,
        site: &G,
        here: u32,
        landing: u32,
        slack: u32,
        costs: &mut [u32],
        places: &mut [Place],
        queue: &mut [Entry<Key>],
    ) -> Result<Answer, Refusal>
        ensures declined { refusal_in result ≡ begin_declines (G.Ground.meaning site.now) here landing slack (length costs.old) (length places.old) (length queue.old) }
        ensures kept { Unless result (stand_of self.old costs.old places.old queue.old) (stand_of self.new costs.new places.new queue.new) }
        ensures beyond { Beyond (G.Ground.meaning site.now) (stand_of self.old costs.old places.old queue.old) (stand_of self.new costs.new places.new queue.new) }
        ensures state { refusal_in result ≡ None → (result ≡ Ok Done) × Accepted (G.Ground.meaning site.now) (begin_with here landing slack) × Holds (G.Ground.meaning site.now) (begun (G.Ground.meaning site.now) (begin_with here landing slack)) (stand_of self.new costs.new places.new queue.new) }
    {
        let n = site.places();
        let m = site.arcs();
        if here >= n || landing >= n {
            return Err(Refusal::NoSuchPlace);
        }
        let slack = Slack::new(slack)?;
        if is_short(&[(costs.len(), m), (places.len(), n), (queue.len(), n)]) {
            return Err(Refusal::TableShort);
        }
        cost_least(site, &mut costs[0..m as usize]);
        open_landing(landing, &mut places[0..n as usize]);
        self.header = Some(Header {
            places: n,
            arcs: m,
            aim: Aim {
                here,
                landing,
                slack,
            },
            count: 0,
            phase: Phase::Changed,
        });
        Ok(Answer::Done)
    }
}
