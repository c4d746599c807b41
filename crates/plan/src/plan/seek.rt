// Search.
ghost use Rattle.std.specs.Prelude.{◌≡◌, [], length};
ghost use Rattle.method.specs.Calls.{search_for};
ghost use Rattle.plan.specs.Answers.{heard, refusal_in};
ghost use Rattle.plan.specs.Courses.{searched_to};
ghost use Rattle.plan.specs.Declines.{search_declines};
ghost use Rattle.plan.specs.Stands.{Beyond, CarriesOut, stand_of, Unless};

use crate::admit::{begun_on, is_short};
use crate::answer::Answer;
use crate::course::{Course, Kind, course_for};
use crate::header::Header;
use crate::phase::Phase;
use crate::plan::Plan;
use ground::ground::Ground;
use queue::entry::Entry;
use queue::key::Key;
use search::made::Made;
use search::place::Place;
use search::search::search;
use terms::refusal::Refusal;

// The header after a search that took this course and came to this.
fn searched(header: Header, course: Course, made: Made) -> Header
    ensures { result ≡ searched_to header course made }
{
    let before = if course.afresh { 0 } else { header.count };
    Header {
        count: before.saturating_add(made.turns),
        phase: if made.settled {
            Phase::Settled
        } else {
            course.next
        },
        ..header
    }
}

impl Plan {
    // Makes turns until the end test holds or the given number is made.
    pub fn search<G: Ground>(
        &mut self,
        site: &G,
        turns: u16,
        costs: &[u32],
        places: &mut [Place],
        queue: &mut [Entry<Key>],
    ) -> Result<Answer, Refusal>
        ensures declined { refusal_in result ≡ search_declines self.old.header (G.Ground.meaning site.now) turns (length costs.now) (length places.old) (length queue.old) }
        ensures kept { Unless result (stand_of self.old costs.now places.old queue.old) (stand_of self.new costs.now places.new queue.new) }
        ensures beyond { Beyond (G.Ground.meaning site.now) (stand_of self.old costs.now places.old queue.old) (stand_of self.new costs.now places.new queue.new) }
        ensures state { CarriesOut (G.Ground.meaning site.now) (search_for turns) (heard result []) (stand_of self.old costs.now places.old queue.old) (stand_of self.new costs.now places.new queue.new) }
    {
        let header = begun_on(self.header, site)?;
        if is_short(&[
            (costs.len(), header.arcs),
            (places.len(), header.places),
            (queue.len(), header.places),
        ]) {
            return Err(Refusal::TableShort);
        }
        let course = course_for(header.phase, Kind::Search)?;
        let m = header.arcs as usize;
        let n = header.places as usize;
        let made = search(
            site,
            header.aim,
            course.afresh,
            turns,
            &costs[0..m],
            &mut places[0..n],
            &mut queue[0..n],
        );
        let header = searched(header, course, made);
        self.header = Some(header);
        let (turns, count) = (made.turns, header.count);
        if made.settled {
            Ok(Answer::Settled { turns, count })
        } else {
            Ok(Answer::Cut { turns, count })
        }
    }
}
