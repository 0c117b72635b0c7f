// What is promised of the definitions, as the contract of a function that does nothing.
ghost use Rattle.mender.specs.Promises.{Promises};
ghost use Rattle.mender.specs.Telling.{ToldLaw};

fn promised()
    ensures { Promises }
{}

fn told_shown()
    ensures { ToldLaw }
{}
