// Worked cases of the solid, the journal and sessions, computed from the definitions that the contracts cite.
#![tactic(auto)]

ghost use Rattle.cases.specs.Cases.{All, the_cases};

// Every case of the list holds.
pub fn worked_cases()
    ensures { All the_cases }
{}
