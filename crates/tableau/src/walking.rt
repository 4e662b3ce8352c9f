// Walking all lines of a proof file.
ghost use Rattle.std.specs.Prelude.{◌≡◌, map};
ghost use Rattle.soundness.specs.Walking.{lines_walked};
ghost use Rattle.citing.specs.Rests.{given_by};
ghost use Rattle.steps.specs.Tableaux.{SameTables, limits, progress};
ghost use Rattle.tableau.specs.Lines.{line_of};

use book::register::Register;
use citing::given::Given;
use denials::denial::{Denial, Reason};
use files::reading::number;
use rules::line::Line;
use steps::tableau::Tableau;

// A line from its seven bytes: a code, and three operands of 16 bits.
fn line_of(bytes: [u8; 7]) -> Line
    ensures { result ≡ line_of bytes }
{
    Line {
        code: bytes[0],
        a: number(bytes[1], bytes[2]),
        b: number(bytes[3], bytes[4]),
        c: number(bytes[5], bytes[6]),
    }
}

// Walks the lines of a proof, of seven bytes each; denied with 20 to 26.
pub(crate) fn walk_lines<R: Register>(
    given: &Given<R>,
    lines: &[[u8; 7]],
    tableau: &mut Tableau,
) -> Result<(), Denial>
    ensures answer { result ≡ lines_walked (limits tableau.old) (given_by R.live given.now) 0 (progress tableau.old) (map line_of lines.now) }
    ensures same { SameTables tableau.old tableau.new }
{
    for (i, line) in lines.iter().enumerate() {
        tableau.step(given, line_of(*line), i as u64 + 1)?;
    }
    if tableau.complete {
        Ok(())
    } else {
        Err(Reason::BranchOpen.at(lines.len() as u64))
    }
}
