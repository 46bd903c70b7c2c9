//! Laws of the amount in use, as contracts of functions that do nothing.
ghost use Rattle.td_guarantee.specs.Laws.{NewUseIsOfItsLines, StepChangesByItsLines, StepGivesBack, StepKeeps, StepTakesUp};

/// A step of one movement, whose lines stay, changes the amount in use by that movement's lines alone: it takes them up where it
/// comes to count, gives them back where it counts no more, and else leaves the amount as it was. A new movement that doesn't
/// count leaves it, too.
pub fn a_step_changes_the_use()
    ensures lines { StepChangesByItsLines }
    ensures up { StepTakesUp }
    ensures back { StepGivesBack }
    ensures keeps { StepKeeps }
    ensures new { NewUseIsOfItsLines }
{}
