// Walking one line.
use crate::tableau::Tableau;
use book::register::Register;
use citing::given::Given;
use denials::denial::{Denial, Reason};
use rules::line::Line;
use rules::table::shape_of;

impl Tableau<'_, '_, '_> {
    ghost use Rattle.std.specs.Prelude.{◌≡◌, Ok, OnErr};
    ghost use Rattle.soundness.specs.Walking.{further};
    ghost use Rattle.citing.specs.Rests.{given_by};
    ghost use Rattle.steps.specs.Tableaux.{SameTables, limits, progress, stepped};

    // Walks a line, whose number counts from 1; denied with 20 to 25.
    pub fn step<R: Register>(
        &mut self,
        given: &Given<R>,
        line: Line,
        number: u64,
    ) -> Result<(), Denial>
        ensures answer { further result (λ _. Ok (progress self.new)) ≡ stepped (limits self.old) (given_by R.live given.now) (progress self.old) line number }
        ensures same { SameTables self.old self.new }
        ensures err { OnErr result (self.new ≡ self.old) }
    {
        if self.complete {
            return Err(Reason::AlreadyComplete.at(number));
        }
        let Some(shape) = shape_of(line) else {
            return Err(Reason::UnknownCode.at(number));
        };
        let movement = given.move_of(&mut self.branch, shape, line, number)?;
        if !self.has_room(shape.rule.takes()) {
            return Err(Reason::NoPlace.at(number));
        }
        self.make(movement);
        Ok(())
    }
}
