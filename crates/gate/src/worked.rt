// Cases worked by hand hold of the definitions that the calls are held to.
ghost use Rattle.gate.specs.Worked.{Worked};

// All the worked cases.
pub fn worked_cases_hold()
    ensures cases { Worked }
{}
