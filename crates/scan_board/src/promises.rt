// What is promised of the image and of the entry points' definitions, as the contract of a function that does nothing.
ghost use Rattle.scan_board.specs.Promises.{Promises};

fn promised()
    ensures { Promises }
{}
