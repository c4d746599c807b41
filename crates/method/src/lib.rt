// The method: what a plan's calls do, as definitions over a ground's meaning, and the route promise proved over them.
#![tactic(auto)]

ghost use Rattle.method.specs.Agreement.{AgreementLaw};
ghost use Rattle.method.specs.Handed.{BeginLaw};
ghost use Rattle.method.specs.Laws.{ChoiceLaws};
ghost use Rattle.method.specs.Promise.{RoutePromiseHolds};

// The route promise stands: for every lawful ground and every past of a plan on it.
pub fn route_promise()
    ensures { RoutePromiseHolds }
{}

// The choice laws stand: which place has a turn, and when a search is over, in words.
pub fn choice_laws()
    ensures { ChoiceLaws }
{}

// The law of Begin stands: it is accepted exactly when its numbers are in range and no table is short.
pub fn begin_law()
    ensures { BeginLaw }
{}

// The agreement law stands: what a call answers and leaves does not depend on what a state holds beyond the ground.
pub fn agreement_law()
    ensures { AgreementLaw }
{}
