// The table of known cases: what the definitions give where the answer was known beforehand.
#![tactic(auto)]

ghost use Rattle.known_cases.specs.KnownCases.{KnownCases};

// Says nothing when it runs; its promise is the table.
pub fn known_cases()
    ensures { KnownCases }
{}
