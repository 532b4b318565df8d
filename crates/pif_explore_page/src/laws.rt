ghost use Rattle.pif_explore_page.specs.Steps.{HasTheseSteps};

/// A law: an array of a schedule has an object for each step that the schedule has in lines, in their order.
pub fn schedules_have_these_steps()
    ensures { HasTheseSteps }
{}
