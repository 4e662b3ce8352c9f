// What is known of every structure in which a statement can hold.
ghost use Rattle.terms.specs.Truth.{FiniteStructuresAreSettled};

// In a finite structure it is decided for each statement and world whether it holds, and for each principal and two worlds whether the pair is there.
pub fn finite_structures_are_settled()
    ensures settled { FiniteStructuresAreSettled }
{}
