// Set, Move and Stretch: the calls that alter a plan.
ghost use Rattle.std.specs.Prelude.{◌≡◌, ℕ, List, [], length, Ok};
ghost use Rattle.ground.specs.Meanings.{Meaning};
ghost use Rattle.method.specs.Calls.{set_cost, move_to, stretch_to};
ghost use Rattle.plan.specs.Answers.{heard, refusal_in};
ghost use Rattle.plan.specs.Courses.{changed_to};
ghost use Rattle.plan.specs.Declines.{set_declines, move_declines, stretch_declines};
ghost use Rattle.plan.specs.Stands.{Beyond, CarriesOut, stand_of, Unless};
ghost use Rattle.queue.specs.declared.entry.Entry.{Entry as EntryOf};
ghost use Rattle.queue.specs.declared.key.Key.{Key as KeyOf};
ghost use Rattle.search.specs.declared.place.Place.{Place as PlaceOf};

use crate::admit::{begun, begun_on, is_short};
use crate::answer::Answer;
use crate::course::{Kind, course_for};
use crate::header::Header;
use crate::layout::{standing_cost, write_cost};
use crate::plan::Plan;
use ground::ground::Ground;
use search::aim::Aim;
use search::place::Place;
use terms::refusal::Refusal;
use terms::slack::Slack;

// The header of a plan that a call alters.
fn altered(header: Header, aim: Aim) -> Result<Header, Refusal>
    ensures { result ≡ Ok (changed_to header aim) }
{
    let course = course_for(header.phase, Kind::Alter)?;
    Ok(Header {
        aim,
        phase: course.next,
        ..header
    })
}

impl Plan {
    // Gives an arc a new cost, and 0 shuts it.
    pub fn set<G: Ground>(
        &mut self,
        site: &G,
        arc: u32,
        cost: u32,
        costs: &mut [u32],
        places: &mut [Place],
    ) -> Result<Answer, Refusal>
        ensures declined { refusal_in result ≡ set_declines self.old.header (G.Ground.meaning site.now) arc cost (length costs.old) (length places.old) }
        ensures kept { Unless result (stand_of self.old costs.old places.old []) (stand_of self.new costs.new places.new []) }
        ensures beyond { Beyond (G.Ground.meaning site.now) (stand_of self.old costs.old places.old []) (stand_of self.new costs.new places.new []) }
        ensures state { (queue : List (EntryOf KeyOf)) → CarriesOut (G.Ground.meaning site.now) (set_cost arc cost) (heard result []) (stand_of self.old costs.old places.old queue) (stand_of self.new costs.new places.new queue) }
    {
        let header = begun_on(self.header, site)?;
        if is_short(&[(costs.len(), header.arcs), (places.len(), header.places)]) {
            return Err(Refusal::TableShort);
        }
        let cost = standing_cost(site, arc, cost)?;
        let after = altered(header, header.aim)?;
        let m = header.arcs as usize;
        let n = header.places as usize;
        write_cost(
            site,
            header.aim,
            arc,
            cost,
            &mut costs[0..m],
            &mut places[0..n],
        );
        self.header = Some(after);
        Ok(Answer::Done)
    }

    // The machine is at another place.
    pub fn move_to(&mut self, place: u32) -> Result<Answer, Refusal>
        ensures declined { refusal_in result ≡ move_declines self.old.header place }
        ensures kept { Unless result (stand_of self.old [] [] []) (stand_of self.new [] [] []) }
        ensures state { (m : Meaning) (costs : List ℕ) (places : List PlaceOf) (queue : List (EntryOf KeyOf)) → CarriesOut m (move_to place) (heard result []) (stand_of self.old costs places queue) (stand_of self.new costs places queue) }
    {
        let header = begun(self.header)?;
        if place >= header.places {
            return Err(Refusal::NoSuchPlace);
        }
        let aim = Aim {
            here: place,
            ..header.aim
        };
        self.header = Some(altered(header, aim)?);
        Ok(Answer::Done)
    }

    // The slack is another.
    pub fn stretch_to(&mut self, slack: u32) -> Result<Answer, Refusal>
        ensures declined { (m : Meaning) → refusal_in result ≡ stretch_declines self.old.header m slack }
        ensures kept { Unless result (stand_of self.old [] [] []) (stand_of self.new [] [] []) }
        ensures state { (m : Meaning) (costs : List ℕ) (places : List PlaceOf) (queue : List (EntryOf KeyOf)) → CarriesOut m (stretch_to slack) (heard result []) (stand_of self.old costs places queue) (stand_of self.new costs places queue) }
    {
        let header = begun(self.header)?;
        let slack = Slack::new(slack)?;
        let aim = Aim {
            slack,
            ..header.aim
        };
        self.header = Some(altered(header, aim)?);
        Ok(Answer::Done)
    }
}
