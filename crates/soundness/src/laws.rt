// The theorems on walking.
ghost use Rattle.soundness.specs.ProofFiles.{SameBytes};
ghost use Rattle.soundness.specs.Laws.{PassesExactly};
ghost use Rattle.soundness.specs.Misreadings.{OneIsNotBoth, NotTurnedRound, AtTheStartOnly, ClosedIsGone};

// A file passes just when it keeps the rules within the limits.
pub fn passing_is_exact()
    ensures exact { PassesExactly }
{}

// A request and lines are laid out as a proof file in one way only.
pub fn layout_is_unique()
    ensures unique { SameBytes }
{}

// One of two is not both, speaking for is not turned round, a saying holds at the start only, and a closed branch is gone.
pub fn misreadings_stay_out()
    ensures one { OneIsNotBoth }
    ensures turned { NotTurnedRound }
    ensures start { AtTheStartOnly }
    ensures closed { ClosedIsGone }
{}
