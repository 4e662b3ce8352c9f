// Reads a line as a command.
ghost use Rattle.std.specs.Prelude.{◌≡◌, Ok, Err, MatchResult};
ghost use Rattle.job.specs.Commands.{answered, told_three, files, spoken_by, reading, asked, meant, heard};
ghost use Rattle.job.specs.Grammar.{Exactly};
ghost use Rattle.job.specs.Keywords.{keyword};
ghost use Rattle.job.specs.Limits.{code_limit, small_limit};
ghost use Rattle.job.specs.Operands.{three, triple};
ghost use Rattle.job.specs.Words.{words};

use crate::command::{Command, Deed, Naming};
use crate::keyword::{Keyword, keyword_of};
use crate::limits::{CODE, GATE, SMALL};
use crate::opening::read_opening;
use crate::operands::{one_number, only, three_numbers};
use crate::unreadable::Unreadable;
use crate::words::next_word;

// The form and the operands of what is to be named.
fn read_naming(rest: &[u8]) -> Result<Naming, Unreadable>
    ensures { MatchResult result (λ n. three code_limit small_limit small_limit (words rest.now) ≡ Ok (triple n.form n.x n.y)) (λ e. three code_limit small_limit small_limit (words rest.now) ≡ Err e) }
{
    let (form, x, y) = three_numbers(rest, CODE, SMALL, SMALL)?;
    Ok(Naming {
        form: form as u8,
        x: x as u16,
        y: y as u16,
    })
}

// The deed `file` with the serial, the standing and the row behind it.
fn read_filing(rest: &[u8]) -> Result<Deed, Unreadable>
    ensures { MatchResult result (λ d. told_three files (three small_limit code_limit small_limit (words rest.now)) ≡ Ok (asked d)) (λ e. told_three files (three small_limit code_limit small_limit (words rest.now)) ≡ Err e) }
{
    let (serial, standing, row) = three_numbers(rest, SMALL, CODE, SMALL)?;
    Ok(Deed::File {
        serial: serial as u16,
        standing: standing as u8,
        row: row as u16,
    })
}

// What a line says that begins with the word `first`.
fn read_words<'a>(first: &[u8], rest: &'a [u8]) -> Result<Command<'a>, Unreadable>
    ensures { answered (meant result) ≡ spoken_by (keyword first.now) (words rest.now) }
{
    match keyword_of(first).ok_or(Unreadable::UnknownCommand)? {
        Keyword::Open => Ok(Command::Open(read_opening(rest)?)),
        Keyword::At => Ok(Command::At(one_number(rest, GATE)?)),
        Keyword::Principal => Ok(Command::Deed(Deed::Principal(read_naming(rest)?))),
        Keyword::Statement => Ok(Command::Deed(Deed::Statement(read_naming(rest)?))),
        Keyword::File => Ok(Command::Deed(read_filing(rest)?)),
        Keyword::Strike => Ok(Command::Deed(Deed::Strike(one_number(rest, SMALL)? as u16))),
        Keyword::Book => only(Command::Deed(Deed::List), rest),
    }
}

// What the line says, or why it cannot be read; nothing for a line without words and for one that begins with `#`. The line stands without its newline.
#[tactic(auto, using(crate::proofs::Exactness::exactly))]
pub fn read_line(line: &[u8]) -> Option<Result<Command<'_>, Unreadable>>
    ensures answer { heard result ≡ reading line.now }
    ensures exactly { Exactly line.now (heard result) }
{
    if line.starts_with(b"#") {
        return None;
    }
    let (first, rest) = next_word(line)?;
    Some(read_words(first, rest))
}
