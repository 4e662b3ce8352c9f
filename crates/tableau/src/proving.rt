// The walk through a whole proof file.
ghost use Rattle.std.specs.Prelude.{◌≡◌, [], map, length, IfOk, Ok, Err, MatchResult};
ghost use Rattle.terms.specs.Named.{rows_of};
ghost use Rattle.trail.specs.Places.{AllBlank};
ghost use Rattle.trail.specs.Trails.{SamePlaces, entries_of};
ghost use Rattle.rules.specs.Branches.{branch, going, blank_fact, blank_link, blank_fork};
ghost use Rattle.soundness.specs.Given.{given};
ghost use Rattle.soundness.specs.Walking.{stated};
ghost use Rattle.soundness.specs.ProofFiles.{proof_read, lines_from, walked};
ghost use Rattle.citing.specs.Rests.{given_by};
ghost use Rattle.steps.specs.Tableaux.{SameTables, limits, progress};
ghost use Rattle.tableau.specs.Lines.{line_of};
ghost use Rattle.tableau.specs.Passing.{Exactly, Grounded};

use crate::walking::walk_lines;
use book::register::Register;
use citing::given::Given;
use denials::denial::{Denial, Reason};
use files::reading::{long_as, read_head};
use rules::branch::{Fact, Fork, Link, Sign};
use std::mem::take;
use steps::tableau::Tableau;
use terms::names::Names;
use trail::trail::Trail;

// The kind of a proof file.
const PROOF: u8 = 1;

// A proof has no more lines than this.
const LINES: u16 = 8000;

// The row of the request and the lines, of seven bytes each; denied with 14 to 19.
fn read_proof<'a>(names: &Names, file: &'a [u8]) -> Result<(u16, &'a [[u8; 7]]), Denial>
    ensures answer { MatchResult result (λ p. proof_read 8000 (length (rows_of names.now).statements) file.now ≡ Ok (record { request = p.0; lines = length p.1.now })) (λ d. proof_read 8000 (length (rows_of names.now).statements) file.now ≡ Err d) }
    ensures lines { IfOk result (λ p. map line_of p.1.now ≡ lines_from file.now 0 (length p.1.now)) }
{
    let head = read_head(file, &[PROOF])?;
    let request = head.request_named(names.statements() as usize)?;
    let count = head.count_within(LINES)?;
    long_as(file, 10 + 7 * count as usize)?;
    let (lines, _) = file[10..].as_chunks::<7>();
    Ok((request, lines))
}

// Walks a proof file with empty tables: its lines from the request's denial on. Denied with 14 to 26; with 25 at place 0 if the table of facts cannot take the request.
fn walk_file<R: Register>(
    given: &Given<R>,
    file: &[u8],
    tableau: &mut Tableau,
) -> Result<u16, Denial>
    requires empty { progress tableau.old ≡ going (branch [] [] 1) [] }
    ensures answer { result ≡ walked (limits tableau.old) (given_by R.live given.now) file.now }
    ensures same { SameTables tableau.old tableau.new }
{
    let (request, lines) = read_proof(given.names, file)?;
    let branch = &mut tableau.branch;
    let denial = Fact::new(Sign::False, request, 0);
    if branch.facts.push(denial).is_err() {
        return Err(Reason::NoPlace.at(0));
    }
    walk_lines(given, lines, tableau)?;
    Ok(request)
}

// Walks a proof file with three empty trails. The tableau has them meanwhile and gives them back: a proof knows what is left in a lent table only while its trail is a variable.
fn walk_with<R: Register>(
    given: &Given<R>,
    file: &[u8],
    facts: &mut Trail<Fact>,
    links: &mut Trail<Link>,
    forks: &mut Trail<Fork>,
) -> Result<u16, Denial>
    requires facts { entries_of facts.old ≡ [] }
    requires links { entries_of links.old ≡ [] }
    requires forks { entries_of forks.old ≡ [] }
    ensures answer { result ≡ walked (stated (length facts.old.places.now) (length links.old.places.now) (length forks.old.places.now)) (given_by R.live given.now) file.now }
    ensures facts { SamePlaces facts.old.places facts.new.places }
    ensures links { SamePlaces links.old.places links.new.places }
    ensures forks { SamePlaces forks.old.places forks.new.places }
{
    let mut tableau = Tableau::new(take(facts), take(links), take(forks));
    let answer = walk_file(given, file, &mut tableau);
    *facts = tableau.branch.facts;
    *links = tableau.branch.links;
    *forks = tableau.forks;
    answer
}

// Checks a proof file against the book, with three lent tables of which the first 4,096 places count. Answers the row of the request if the file keeps the rules, or the first denial. The tables are blank afterwards, every place of them, whatever they held. Names, book and tables come one by one, as the gate and its callers hold them.
pub fn walk<R: Register>(
    names: &Names,
    book: &R,
    file: &[u8],
    facts: &mut [Fact],
    links: &mut [Link],
    forks: &mut [Fork],
) -> Result<u16, Denial>
    ensures answer { result ≡ walked (stated (length facts.old) (length links.old) (length forks.old)) (given (rows_of names.now) (R.live book.now)) file.now }
    ensures exactly { Exactly (stated (length facts.old) (length links.old) (length forks.old)) (given (rows_of names.now) (R.live book.now)) file.now result }
    ensures follows { Grounded (given (rows_of names.now) (R.live book.now)) result }
    ensures blank_facts { AllBlank blank_fact facts.new }
    ensures blank_links { AllBlank blank_link links.new }
    ensures blank_forks { AllBlank blank_fork forks.new }
{
    let mut facts = Trail::new(facts);
    let mut links = Trail::new(links);
    let mut forks = Trail::new(forks);
    let given = Given { names, book };
    let answer = walk_with(&given, file, &mut facts, &mut links, &mut forks);
    facts.cut(0);
    links.cut(0);
    forks.cut(0);
    answer
}
