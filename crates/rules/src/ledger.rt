// A fact about the ledger by which the promise is told, on the contract of a call that does nothing.
ghost use Rattle.rules.specs.Ledger.{ReleasedThere};

// The cycle that the ledger gives for an instance's release is the one in which the number of releases grows.
pub fn releases_grow_there()
    ensures { ReleasedThere }
{}
