// The worked tables follow from the rules that the master's contracts cite.
ghost use Rattle.worked.specs.Tables.{Worked};

// A call that does nothing, so that the proof is asked for.
pub fn worked_tables()
    ensures { Worked }
{}
