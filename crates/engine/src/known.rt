// Facts about every table and every order, each on the contract of a call that does nothing, so that its proof is
// asked for.
ghost use Rattle.engine.specs.Known.{LighterIsNoLater, WaitsComeBack};

pub fn lighter_is_no_later()
    ensures { LighterIsNoLater }
{}

pub fn waits_come_back()
    ensures { WaitsComeBack }
{}
