// What is promised of the definitions, as the contract of a function that does nothing.
ghost use Rattle.records.specs.Promises.{Promises};

fn promised()
    ensures { Promises }
{}
