// What is proved of the rules themselves.
ghost use Rattle.rules.specs.Recounted.{RecountOfWorkedRuns};
ghost use Rattle.rules.specs.Refused.{RefusalsComeInOrder};
ghost use Rattle.rules.specs.Worked.{WorkedRunsComeOut};

/// The runs worked by hand come out as they were worked.
pub fn worked_runs_come_out()
    ensures { WorkedRunsComeOut }
{}

/// Each refusal comes, and before those that are checked later.
pub fn refusals_come_in_order()
    ensures { RefusalsComeInOrder }
{}

/// The recount of the runs worked by hand is what was counted by hand.
pub fn recount_of_worked_runs()
    ensures { RecountOfWorkedRuns }
{}
