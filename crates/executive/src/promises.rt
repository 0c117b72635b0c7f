// What is promised: nothing to run, contracts that keep the theorems in place.
ghost use Rattle.executive.specs.Promises.Demands.{Demands};
ghost use Rattle.executive.specs.Promises.QueueLaw.{QueueLaw};
ghost use Rattle.executive.specs.Promises.Worked.{Worked};
ghost use Rattle.executive.specs.Promises.Skipping.{Skipping};
ghost use Rattle.executive.specs.Promises.EveryStart.{EveryStart};
ghost use Rattle.executive.specs.Promises.ByDecision.{ByDecision};
ghost use Rattle.executive.specs.Promises.Waking.{Waking};
ghost use Rattle.executive.specs.Promises.Walks.{Walks};
ghost use Rattle.executive.specs.Promises.LampLaw.{LampLaw};
ghost use Rattle.executive.specs.Promises.SubLaw.{SubLaw};
ghost use Rattle.executive.specs.Promises.MailLaw.{MailLaw};
ghost use Rattle.executive.specs.States.{StatesTold};
ghost use Rattle.executive.specs.Promises.Cards.{Cards};
ghost use Rattle.executive.specs.Promises.FreshLaw.{FreshLaw};
ghost use Rattle.executive.specs.Check.{Decided};
ghost use Rattle.executive.specs.Promises.Broken.{Broken};

// The founder's demands, the queue's law, one history worked out, the restart that skips, the account of every start,
// that a step is its decision, whom a tick wakes, how far those that enter walk, what the lamp shows, that one task at
// a time is in a subprogram, and the account of every message: nothing to run, a contract that keeps the theorems in
// place.
fn promised()
    ensures { Demands × QueueLaw × Worked × Skipping × EveryStart × ByDecision × Waking × Walks × LampLaw × SubLaw × MailLaw }
{}

// What is shown of them: kind, time and mask tell the state, and each has one answer.
fn states_told()
    ensures { StatesTold }
{}

// Every fresh table is well formed, and what else specs/Promises/FreshLaw says of a configuration.
fn fresh_law()
    ensures { FreshLaw }
{}

// The bench cards P1 to P12 hold of the definitions.
fn cards()
    ensures { Cards }
{}

// What is shown of the check: it decides the rules, with one answer for each table; and it refuses tables that are
// broken in one rule each.
fn check_shown()
    ensures { Decided × Broken }
{}
