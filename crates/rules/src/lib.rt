// The rules of a sound boundary, and that the operators keep them. A function here has a theorem as its contract, and is proved only where the theorem is.
#![tactic(auto)]

ghost use Rattle.std.specs.Prelude.{List};
ghost use Rattle.boundary.specs.declared.Boundary.{Boundary};
ghost use Rattle.boundary.specs.declared.Edit.{Edit};
ghost use Rattle.rules.specs.Broken.{Broken};
ghost use Rattle.rules.specs.Consequences.{Consequences};
ghost use Rattle.rules.specs.Examples.{Worked};
ghost use Rattle.rules.specs.Histories.{StaysSound};
ghost use Rattle.rules.specs.RingLaws.{RingLaws};
ghost use Rattle.rules.specs.Rules.{Sound};

// Every list of edits leaves a sound boundary, whose handles are those that the list made.
pub fn lists_stay_sound()
    ensures { (es : List Edit) → StaysSound es }
{}

// What each operator does to the rings of a sound boundary, and which operator undoes which.
pub fn rings_change_as_stated()
    ensures { (b : Boundary) → Sound b → RingLaws b }
{}

// Every half-edge of a sound boundary has one before it, and walks round loops and vertices come back.
pub fn walks_come_back()
    ensures { (b : Boundary) → Sound b → Consequences b }
{}

// What small solids come to, computed from the definitions.
pub fn worked_cases()
    ensures { Worked }
{}

// For each rule there is a table that breaks it.
pub fn rules_can_be_broken()
    ensures { Broken }
{}
