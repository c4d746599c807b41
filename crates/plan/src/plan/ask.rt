// Route and Sum: the calls that only ask.
ghost use Rattle.std.specs.Prelude.{◌≡◌, ℕ, List, [], length};
ghost use Rattle.ground.specs.Meanings.{Meaning};
ghost use Rattle.method.specs.Calls.{route_into, sum_over};
ghost use Rattle.plan.specs.Answers.{heard, refusal_in};
ghost use Rattle.plan.specs.Asked.{ListKept, RouteTurnedAway};
ghost use Rattle.plan.specs.Declines.{route_declines, sum_declines};
ghost use Rattle.plan.specs.Stands.{CarriesOut, stand_of};
ghost use Rattle.queue.specs.declared.entry.Entry.{Entry as EntryOf};
ghost use Rattle.queue.specs.declared.key.Key.{Key as KeyOf};
ghost use Rattle.search.specs.declared.place.Place.{Place as PlaceOf};

use crate::admit::{begun, begun_on, is_short};
use crate::answer::Answer;
use crate::course::{Kind, course_for};
use crate::plan::Plan;
use crate::route::{count_arcs, is_far, write_arcs};
use crate::total::total;
use ground::ground::Ground;
use search::offers::Offers;
use search::place::Place;
use search::task::Task;
use terms::refusal::Refusal;

impl Plan {
    // Writes the arcs of the route from the front of the list, and answers their count and sum.
    pub fn route<G: Ground>(
        &self,
        site: &G,
        costs: &[u32],
        places: &[Place],
        list: &mut [u32],
    ) -> Result<Answer, Refusal>
        ensures declined { RouteTurnedAway (route_declines self.now.header (G.Ground.meaning site.now) (length list.old) (length costs.now) (length places.now)) result }
        ensures kept { ListKept result list.old list.new }
        ensures state { (queue : List (EntryOf KeyOf)) → CarriesOut (G.Ground.meaning site.now) (route_into (length list.old)) (heard result list.new) (stand_of self.now costs.now places.now queue) (stand_of self.now costs.now places.now queue) }
    {
        let header = begun_on(self.header, site)?;
        if is_short(&[(costs.len(), header.arcs), (places.len(), header.places)]) {
            return Err(Refusal::TableShort);
        }
        let _ = course_for(header.phase, Kind::Route)?;
        let places = &places[0..header.places as usize];
        if is_far(places, header.aim.here) {
            return Err(Refusal::NoWay);
        }
        let task = Task {
            site,
            aim: header.aim,
            costs: &costs[0..header.arcs as usize],
        };
        let offers = Offers {
            task: &task,
            places,
        };
        let arcs = count_arcs(&offers);
        if arcs > list.len() {
            return Err(Refusal::ListShort);
        }
        let sum = write_arcs(&offers, &mut list[0..arcs]);
        Ok(Answer::Route { arcs, sum })
    }

    // Adds the present costs of the arcs in a list.
    pub fn sum(&self, arcs: &[u32], costs: &[u32]) -> Result<Answer, Refusal>
        ensures declined { refusal_in result ≡ sum_declines self.now.header arcs.now (length costs.now) }
        ensures state { (m : Meaning) (places : List PlaceOf) (queue : List (EntryOf KeyOf)) → CarriesOut m (sum_over arcs.now) (heard result []) (stand_of self.now costs.now places queue) (stand_of self.now costs.now places queue) }
    {
        let header = begun(self.header)?;
        if is_short(&[(costs.len(), header.arcs)]) {
            return Err(Refusal::TableShort);
        }
        let sum = total(arcs, &costs[0..header.arcs as usize])?;
        Ok(Answer::Sum(sum))
    }
}
